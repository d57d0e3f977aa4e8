// Cases of the search call and of the call with a wanted gap: each prints a line with the case's name, what is answered for its file, its
// start row and its budget, and what the row holds afterwards. The file `stdout` beside src/ has the lines that the paper gives.
#![tactic(auto)]

mod cases;
mod loops;
mod paper;
mod refusals;
mod wanted;

use std::io;

fn main(rt: HostRuntime) -> io::Result<()> {
    paper::all(&rt)?;
    refusals::all(&rt)?;
    loops::all(&rt)?;
    wanted::all(&rt)
}
