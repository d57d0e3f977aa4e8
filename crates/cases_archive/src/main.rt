// Cases of the archive call: each prints a line with the case's name, what is answered, and what the row holds afterwards. The file
// `stdout` beside src/ has the lines that the papers give, worked out by hand from document 02's A.1 and A.6 and document 01's sections on the
// network file and the grounds.
#![tactic(auto)]

mod cases;
mod editions;
mod large;
mod networks;
mod rows;
mod shown;

use std::io;

fn main(rt: HostRuntime) -> io::Result<()> {
    rows::all(&rt)?;
    networks::all(&rt)?;
    editions::all(&rt)?;
    large::all(&rt)
}
