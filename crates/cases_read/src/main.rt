// Cases of the read call: each prints a line with the case's name and what the reader answers. The file `stdout` beside
// src/ has the lines that the paper gives, worked out by hand from its sections on the network file and the grounds, and from document
// 02's A.4 and A.6.
#![tactic(auto)]

mod cases;
mod cycle;
mod edges;
mod editions;
mod grounds;
mod limits;
mod pairs;
mod tails;

use std::io;

fn main(rt: HostRuntime) -> io::Result<()> {
    edges::all(&rt)?;
    grounds::all(&rt)?;
    pairs::all(&rt)?;
    limits::all(&rt)?;
    tails::all(&rt)?;
    cycle::all(&rt)?;
    editions::all(&rt)
}
