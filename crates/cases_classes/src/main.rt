// Cases of the class call and the weighted rating: each prints a line with the case's name, what is answered, and what the rows hold
// afterwards. The file `stdout` beside src/ has the lines that the paper gives, worked out by hand from its sections on classes of stops,
// sheets and the grounds.
#![tactic(auto)]

mod cases;
mod networks;
mod rows;
mod sheets;

use std::io;

fn main(rt: HostRuntime) -> io::Result<()> {
    networks::all(&rt)?;
    rows::all(&rt)?;
    sheets::all(&rt)
}
