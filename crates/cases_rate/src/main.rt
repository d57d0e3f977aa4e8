// Cases of the rate call, and of the gaps call beside it, from the lines of standard input: each prints a line with the case's name and what the
// call answers for its file and its sheet. The file `stdin` beside src/ has the cases and `stdout` the lines that the paper gives.
#![tactic(auto)]

mod cases;
mod gap_rows;

use crate::cases::case;
use cases_typed::input::{ROOM, read_full};
use cases_typed::lines::each_case;
use std::io;

fn main(rt: HostRuntime) -> io::Result<()> {
    let mut input = rt.stdin();
    let mut text = [0u8; ROOM];
    let end = read_full(&mut input, &mut text)?;
    each_case(&text[..end], |line| case(&rt, line))
}
