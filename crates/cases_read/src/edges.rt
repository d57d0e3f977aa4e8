// The edges that the paper names, and how a file is read on from command to command.
use crate::cases::{case, named};
use cases_typed::papers::{ONE_LINE, P1, P9};
use std::io;

pub fn all(rt: &impl Print) -> io::Result<()> {
    periods(rt)?;
    nine_bytes(rt)?;
    networks(rt)?;
    operands(rt)?;
    file_order(rt)
}

// Section "Edges and cases", its first lines.
fn periods(rt: &impl Print) -> io::Result<()> {
    case(rt, b"period 1440: 4C05A0 4300000008 45")?;
    case(
        rt,
        b"periods 1440 and 7: 4C05A0 4C0007 4300000000 4301000000 45",
    )?;
    case(rt, b"period 1441: 4C05A1 4300000008 45")?;
    case(
        rt,
        b"periods 1440 and 11: 4C05A0 4C000B 4300000000 4301000000 45",
    )
}

fn nine_bytes(rt: &impl Print) -> io::Result<()> {
    named(rt, b"nine bytes", &ONE_LINE)?;
    case(rt, b"nine bytes without the last: 4C000F 4300000008")?;
    case(rt, b"nine bytes and one more: 4C000F 4300000008 45 00")?;
    case(rt, b"empty file:")
}

// The files of P1 and P9.
fn networks(rt: &impl Print) -> io::Result<()> {
    named(rt, b"P1", &P1)?;
    named(rt, b"P9", &P9)
}

// Operands are read by their width, whatever bytes they hold.
fn operands(rt: &impl Print) -> io::Result<()> {
    case(
        rt,
        b"operands like commands: 4C0043 4300004546 4600014645 45",
    )?;
    case(rt, b"45 taken for an operand: 4C000F 43000000 45")?;
    case(rt, b"high byte first: 4C0100 4300000000 45")
}

// Lines and calls come in any order, and an earlier command is refused before a later one, whatever their grounds.
fn file_order(rt: &impl Print) -> io::Result<()> {
    case(
        rt,
        b"a line behind calls: 4C000F 4300000008 4C0014 4301000011 45",
    )?;
    case(rt, b"6 before 5: 4C05A0 4C000B 4C0000")?;
    case(rt, b"8 before 7: 4C000F 4300400000 4301000000 45")?;
    case(rt, b"12 before 2: 4C000F 430000FFFF 4600010001 FF")
}
