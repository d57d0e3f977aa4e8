// One case of the class call: a line says what it answers, and what the rows hold afterwards.
ghost use Rattle.std.specs.Prelude.{◌<◌, ◌≤◌, length};

use cases_typed::large::large_file;
use cases_typed::show::{show_name, show_number, show_numbers, show_refusal, sum_of};
use cases_typed::{cut, put_hex};
use network::grounds::Refusal;
use std::io;

// A case: its name, a colon, and a file of at most 128 bytes in hexadecimal, as the paper writes files. Of each row so many places are
// shown.
pub fn case(rt: &impl Print, text: &[u8], shown: usize) -> io::Result<()>
    requires { shown ≤ 64 }
{
    let (name, file) = cut(text, b':');
    named(rt, name, file, shown)
}

// A case whose name stands by itself.
pub fn named(rt: &impl Print, name: &[u8], text: &[u8], shown: usize) -> io::Result<()>
    requires { shown ≤ 64 }
{
    let mut file = [0u8; 128];
    let end = put_hex(text, &mut file, 0);
    show(rt, name, &file[..end], shown)
}

// A case whose file has so many lines of one period and so many calls, as `large_file` has them with sloping offsets, and ends as the
// text says.
pub fn large_case(
    rt: &impl Print,
    text: &[u8],
    lines: usize,
    period: u16,
    calls: usize,
    shown: usize,
) -> io::Result<()>
    requires { (0 < lines) × (lines ≤ 16) × (calls ≤ 256) × (shown ≤ 64) }
{
    let (name, behind) = cut(text, b':');
    let mut file = large_file(lines, lines, period, true);
    let end = put_hex(behind, &mut file, 3 * lines + 5 * calls);
    show(rt, name, &file[..end], shown)
}

// The answer for a file with rows of 64 places, on a line of its own.
fn show(rt: &impl Print, name: &[u8], file: &[u8], shown: usize) -> io::Result<()>
    requires { shown ≤ 64 }
{
    let mut classes = [7u8; 64];
    let mut weights = [500u16; 64];
    show_name(rt, name)?;
    let answer = network::classes::classes(file, &mut classes, &mut weights);
    show_answer(rt, answer)?;
    print!(rt; "; row")?;
    show_numbers(rt, &classes[..shown])?;
    print!(rt; "; weights")?;
    show_numbers(rt, &weights[..shown])?;
    show_sums(rt, &classes, &weights)
}

// The number of classes, or the refusal.
pub fn show_answer(rt: &impl Print, answer: Result<u32, Refusal>) -> io::Result<()> {
    match answer {
        Ok(count) => print!(rt; " classes {count}"),
        Err(refusal) => show_refusal(rt, refusal.reason.number(), refusal.place),
    }
}

// The sums of both rows, by which a change anywhere shows, and the line's end.
pub fn show_sums(rt: &impl Print, classes: &[u8], weights: &[u16]) -> io::Result<()>
    requires { (length classes.now ≤ 4096) × (length weights.now ≤ 4096) }
{
    print!(rt; "; sums")?;
    show_number(rt, class_sum(classes))?;
    show_number(rt, sum_of(weights))?;
    println!(rt)
}

fn class_sum(row: &[u8]) -> u64
    requires { length row.now ≤ 4096 }
{
    row.iter().map(|class| u64::from(*class)).sum()
}
