// The board call's answer and its rows on standard output.
ghost use Rattle.std.specs.Prelude.{◌≤◌};

use cases_typed::show::show_refusal;
use network::grounds::Refusal;
use std::io;

// How many places the rows have of which parts are lent.
pub const PLACES: usize = 32;

// What every place of a row holds before the call: a minute that no window reaches, and a number that no line has.
pub const NO_TIME: i64 = 9999999999;

pub const NO_LINE: u8 = 255;

// How many arrivals are listed, or the refusal.
pub fn show_answer(rt: &impl Print, answer: Result<u32, Refusal>) -> io::Result<()> {
    match answer {
        Ok(count) => print!(rt; " listed {count}"),
        Err(refusal) => show_refusal(rt, refusal.reason.number(), refusal.place),
    }
}

// Both rows whole: the places that are written, how many stand behind them as before the call, and the line's end.
pub fn show_rows(rt: &impl Print, times: &[i64; PLACES], lines: &[u8; PLACES]) -> io::Result<()> {
    let end = written(times, lines);
    print!(rt; "; rows")?;
    for (time, line) in times[..end].iter().zip(&lines[..end]) {
        show_arrival(rt, *time, *line)?;
    }
    let untouched = PLACES - end;
    println!(rt; ", untouched {untouched}")
}

// How many places of the rows are written: up to the last of which either isn't as before the call.
fn written(times: &[i64; PLACES], lines: &[u8; PLACES]) -> usize
    ensures { result ≤ 32 }
{
    times
        .iter()
        .zip(lines)
        .rposition(|(time, line)| *time != NO_TIME || *line != NO_LINE)
        .map_or(0, |last| last + 1)
}

// An arrival: its time, of either sign, and behind a stroke its line. Two writes, as ever.
fn show_arrival(rt: &impl Print, time: i64, line: u8) -> io::Result<()> {
    print!(rt; " {time}")?;
    print!(rt; "/{line}")
}
