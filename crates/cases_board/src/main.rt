// Cases of the board call, from the lines of standard input: each prints a line with the case's name, what is answered, and what the rows hold
// afterwards, each arrival as its time, a stroke and its line. The file `stdin` beside src/ has the cases and `stdout` the lines that the papers
// give.
#![tactic(auto)]

mod cases;
mod shown;

use crate::cases::case;
use cases_typed::input::{ROOM, read_full};
use cases_typed::lines::each_case;
use std::io;

fn main(rt: HostRuntime) -> io::Result<()> {
    let mut input = rt.stdin();
    let mut text = [0u8; ROOM];
    let end = read_full(&mut input, &mut text)?;
    each_case(&text[..end], |line| case(&rt, line))
}
