// The archive call's answer and its row on standard output.
ghost use Rattle.std.specs.Prelude.{◌<◌, ◌≤◌, length};
ghost use Rattle.cases_typed.specs.Counts.{IsPrefixLen};

use cases_typed::show::show_refusal;
use network::grounds::Refusal;
use std::io;

// What every place of a row holds before the call. An archive form ends with 45, so that it is told from what stands behind it.
pub const FILL: u8 = 0xA5;

// The length of the archive form, or the refusal.
pub fn show_answer(rt: &impl Print, answer: Result<u32, Refusal>) -> io::Result<()> {
    match answer {
        Ok(bytes) => print!(rt; " archived {bytes}"),
        Err(refusal) => show_refusal(rt, refusal.reason.number(), refusal.place),
    }
}

// How many of a row's bytes are written: up to the last that isn't as before the call.
pub fn written(row: &[u8]) -> usize
    ensures { IsPrefixLen result row.now }
{
    row.iter()
        .rposition(|byte| *byte != FILL)
        .map_or(0, |last| last + 1)
}

// A row whole: the bytes that are written, and how many stand behind them as before the call.
pub fn show_row(rt: &impl Print, row: &[u8]) -> io::Result<()> {
    let end = written(row);
    print!(rt; "; row")?;
    show_commands(rt, &row[..end])?;
    show_rest(rt, row, end)
}

// How many bytes stand behind the written ones as before the call, and the line's end.
pub fn show_rest(rt: &impl Print, row: &[u8], end: usize) -> io::Result<()>
    requires { end ≤ length row.now }
{
    let rest = row.len() - end;
    println!(rt; ", A5 {rest} times")
}

// Bytes as the paper writes a file: a space before each command, and none before its operands.
pub fn show_commands(rt: &impl Print, bytes: &[u8]) -> io::Result<()> {
    let mut left: usize = 0;
    for byte in bytes {
        if left == 0 {
            print!(rt; " ")?;
            left = command_length(*byte);
        }
        show_byte(rt, *byte)?;
        left -= 1;
    }
    Ok(())
}

// The length of a command of the archive form, with its operands; any other byte stands by itself.
fn command_length(byte: u8) -> usize
    ensures { 0 < result }
{
    match byte {
        0x4C => 3,
        0x43 => 5,
        0x56 => 2,
        _ => 1,
    }
}

// A byte as a pair of digits.
fn show_byte(rt: &impl Print, byte: u8) -> io::Result<()> {
    let pair = [glyph(byte / 16), glyph(byte % 16)];
    rt.write_all(&pair)
}

// The digit of a value, 0 to 9 or A to F.
fn glyph(digit: u8) -> u8
    requires { digit < 16 }
{
    if digit < 10 {
        b'0' + digit
    } else {
        b'A' + (digit - 10)
    }
}
