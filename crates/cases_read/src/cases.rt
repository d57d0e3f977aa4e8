// One case: a file is given to the reader, and a line says what it answers.
ghost use Rattle.std.specs.Prelude.{◌<◌, ◌≤◌};

use cases_typed::large::large_file;
use cases_typed::show::{show_name, show_refusal};
use cases_typed::{cut, put_hex};
use network::Accepted;
use network::grounds::Refusal;
use std::io;

// A case: its name, a colon, and a file of at most 96 bytes in hexadecimal, as the paper writes files.
pub fn case(rt: &impl Print, text: &[u8]) -> io::Result<()> {
    let (name, file) = cut(text, b':');
    named(rt, name, file)
}

// A case whose name stands by itself.
pub fn named(rt: &impl Print, name: &[u8], text: &[u8]) -> io::Result<()> {
    let mut file = [0u8; 96];
    let end = put_hex(text, &mut file, 0);
    show(rt, name, &file[..end])
}

// A case whose file begins with so many lines and calls of `large_file`, and goes on as the text says.
pub fn large_case(
    rt: &impl Print,
    text: &[u8],
    lines: usize,
    callers: usize,
    calls: usize,
) -> io::Result<()>
    requires { (lines ≤ 16) × (0 < callers) × (calls ≤ 256) }
{
    let (name, behind) = cut(text, b':');
    let mut file = large_file(lines, callers, 60, false);
    let end = put_hex(behind, &mut file, 3 * lines + 5 * calls);
    show(rt, name, &file[..end])
}

// A case whose file begins with 16 lines and all 256 calls.
pub fn full_case(rt: &impl Print, text: &[u8]) -> io::Result<()> {
    large_case(rt, text, 16, 16, 256)
}

// The reader's answer for a file, on a line of its own.
pub fn show(rt: &impl Print, name: &[u8], file: &[u8]) -> io::Result<()> {
    show_name(rt, name)?;
    show_answer(rt, network::reader::read(file))?;
    println!(rt)
}

// The numbers of lines, stops and calls and the cycle, or the refusal.
fn show_answer(rt: &impl Print, answer: Result<Accepted, Refusal>) -> io::Result<()> {
    match answer {
        Ok(read) => {
            print!(rt;
                " accepted {} {} {} {}",
                read.lines, read.stops, read.calls, read.cycle
            )
        }
        Err(refusal) => show_refusal(rt, refusal.reason.number(), refusal.place),
    }
}
