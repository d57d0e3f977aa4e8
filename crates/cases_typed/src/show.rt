// Names, numbers and starts on standard output: a case's name first, and what follows each behind a space.
ghost use Rattle.std.specs.Prelude.{◌≤◌, length};

use std::io;

// The name of a case.
pub fn show_name(rt: &impl Print, name: &[u8]) -> io::Result<()> {
    rt.write_all(name)?;
    rt.write_all(b":")
}

// A number.
pub fn show_number(rt: &impl Print, number: u64) -> io::Result<()> {
    print!(rt; " {number}")
}

// A rating. Not its `Display`: that would stand in `network`, which prints nothing, and these words are the programs' own.
pub fn show_rating(rt: &impl Print, least: u32, sum: u32) -> io::Result<()> {
    print!(rt; " {least} {sum}")
}

// The numbers of a row.
pub fn show_numbers<N: Copy + Into<u64>>(rt: &impl Print, row: &[N]) -> io::Result<()> {
    for number in row {
        show_number(rt, (*number).into())?;
    }
    Ok(())
}

// The sum of a row, by which a change anywhere shows.
pub fn sum_of(row: &[u16]) -> u64
    requires { length row.now ≤ 4096 }
{
    row.iter().map(|number| u64::from(*number)).sum()
}

// The starts of a row.
pub fn show_row(rt: &impl Print, row: &[i32]) -> io::Result<()> {
    for start in row {
        show_start(rt, *start)?;
    }
    Ok(())
}

// A start; of a negative one only that it is.
fn show_start(rt: &impl Print, start: i32) -> io::Result<()> {
    if 0 <= start {
        print!(rt; " {start}")
    } else {
        print!(rt; " negative")
    }
}

// A refusal, by its number and place, as with a rating; this crate knows no other, so not by the type.
pub fn show_refusal(rt: &impl Print, number: u8, place: usize) -> io::Result<()> {
    print!(rt; " refused {number} at {place}")
}
