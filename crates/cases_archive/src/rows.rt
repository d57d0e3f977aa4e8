// Rows of other lengths, and files that are refused: a row that is too short, or lent with a refused file, stays untouched.
use crate::cases::{case, named};
use crate::networks::RIDES;
use cases_typed::papers::{ONE_LINE, P1};
use std::io;

pub fn all(rt: &impl Print) -> io::Result<()> {
    lengths(rt)?;
    more_lines(rt)?;
    no_byte(rt)?;
    line_not_stated(rt)?;
    silent_line(rt)?;
    byte_behind(rt)
}

// The nine bytes are their own archive form: 3 for a line, 5 for a call, 1 for the end.
fn lengths(rt: &impl Print) -> io::Result<()> {
    named(rt, b"tidy file, row of 9", &ONE_LINE, 9)?;
    named(rt, b"tidy file, row of 10", &ONE_LINE, 10)?;
    named(rt, b"tidy file, row of 64", &ONE_LINE, 64)?;
    named(rt, b"tidy file, row of 8", &ONE_LINE, 8)?;
    named(rt, b"tidy file, row of 1", &ONE_LINE, 1)?;
    named(rt, b"tidy file, row of 0", &ONE_LINE, 0)
}

// Two lines and two calls make 17; a line with four calls, two of them by 46, 24.
fn more_lines(rt: &impl Print) -> io::Result<()> {
    named(rt, b"two lines, row of 17", &P1, 17)?;
    named(rt, b"two lines, row of 16", &P1, 16)?;
    named(rt, b"rides, row of 24", &RIDES, 24)?;
    named(rt, b"rides, row of 23", &RIDES, 23)
}

// Ground 1, before 18. A row of 8 is as long as the file, and too short for the nine bytes that 45 would make of it.
fn no_byte(rt: &impl Print) -> io::Result<()> {
    case(rt, b"1, row of 0: 4C000F 4300000008", 0)?;
    case(rt, b"1, row of 8: 4C000F 4300000008", 8)?;
    case(rt, b"1, row of 64: 4C000F 4300000008", 64)?;
    case(rt, b"no byte, row of 0:", 0)?;
    case(rt, b"no byte, row of 64:", 64)
}

// Ground 7. The line and the call before it are sound, and none of it is written.
fn line_not_stated(rt: &impl Print) -> io::Result<()> {
    case(rt, b"7, row of 0: 4C000F 4300000008 4301000011 45", 0)?;
    case(rt, b"7, row of 64: 4C000F 4300000008 4301000011 45", 64)
}

// Ground 13, found only at the end.
fn silent_line(rt: &impl Print) -> io::Result<()> {
    case(rt, b"13, row of 0: 4C000F 4C0014 4300000008 45", 0)?;
    case(rt, b"13, row of 64: 4C000F 4C0014 4300000008 45", 64)
}

// Ground 14, found behind it.
fn byte_behind(rt: &impl Print) -> io::Result<()> {
    case(rt, b"14, row of 0: 4C000F 4300000008 45 00", 0)?;
    case(rt, b"14, row of 64: 4C000F 4300000008 45 00", 64)
}
