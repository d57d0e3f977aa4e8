// Document 02, A.6: the edition that opens a file, and 46 in edition 2.
use crate::cases::{case, show};
use cases_typed::large::large_file_in_edition;
use cases_typed::{cut, put_hex};
use std::io;

pub fn all(rt: &impl Print) -> io::Result<()> {
    opened(rt)?;
    unknown_editions(rt)?;
    not_first(rt)?;
    cut_off(rt)?;
    rides(rt)?;
    operands(rt)?;
    full(rt)
}

// Read's four numbers don't tell the edition. Behind it a file goes on as ever, with places two more.
fn opened(rt: &impl Print) -> io::Result<()> {
    case(rt, b"edition 1: 5601 4C000F 4300000008 45")?;
    case(rt, b"edition 2: 5602 4C000F 4300000008 45")?;
    case(
        rt,
        b"edition 1, a ride: 5601 4C000F 4300000008 4600010003 45",
    )?;
    case(rt, b"edition 2, nothing more: 5602")?;
    case(rt, b"edition 2, no line: 5602 45")?;
    case(rt, b"edition 2, unknown command: 5602 00")?;
    case(rt, b"edition 2, period 1441: 5602 4C05A1")?;
    case(rt, b"edition 2, silent line: 5602 4C000F 45")
}

// 21, whatever stands behind; and the bytes beside 56 are no commands.
fn unknown_editions(rt: &impl Print) -> io::Result<()> {
    case(rt, b"edition 0: 5600")?;
    case(rt, b"edition 3: 5603")?;
    case(rt, b"edition 255: 56FF")?;
    case(rt, b"edition 3, a whole file: 5603 4C000F 4300000008 45")?;
    case(rt, b"edition 3, an unknown command: 5603 00")?;
    case(rt, b"byte 55: 55")?;
    case(rt, b"byte 57: 57")
}

// 20 at any place but byte 0, before 21 and after 3. Behind 45 it is 14.
fn not_first(rt: &impl Print) -> io::Result<()> {
    case(rt, b"56 behind a line: 4C000F 5602 4300000008 45")?;
    case(rt, b"56 behind a call: 4C000F 4300000008 5602 45")?;
    case(rt, b"56 behind 56: 5602 5602 4C000F 4300000008 45")?;
    case(
        rt,
        b"56 behind 56, the same edition: 5601 5601 4C000F 4300000008 45",
    )?;
    case(rt, b"56 behind 56, an unknown edition: 5602 5607")?;
    case(rt, b"unknown edition behind a line: 4C000F 5600")?;
    case(rt, b"56 behind the end: 4C000F 4300000008 45 5602")?;
    case(
        rt,
        b"56 behind 56 and the end: 5602 4C000F 4300000008 45 56",
    )
}

fn cut_off(rt: &impl Print) -> io::Result<()> {
    case(rt, b"56 alone: 56")?;
    case(rt, b"56 alone behind a line: 4C000F 56")?;
    case(rt, b"56 alone behind 56: 5602 56")
}

// 19 comes after 3 and before 7 to 12, so that in edition 2 every 46 with its operands is 19.
fn rides(rt: &impl Print) -> io::Result<()> {
    case(rt, b"edition 2, a ride of no line: 5602 4609090000 45")?;
    case(rt, b"edition 2, a ride cut off: 5602 46090900")?;
    case(rt, b"edition 1, a ride of no line: 5601 4609090000 45")?;
    case(
        rt,
        b"edition 2, a ride that edition 1 has: 5602 4C000F 4300000008 4600010003 45",
    )?;
    case(
        rt,
        b"edition 2, a ride to stop 64: 5602 4C000F 4300000008 4600400003 45",
    )?;
    case(
        rt,
        b"edition 2, a ride too far: 5602 4C000F 430000FFFF 4600010001 45",
    )?;
    case(
        rt,
        b"edition 1, a ride too far: 5601 4C000F 430000FFFF 4600010001 45",
    )
}

// Bytes 46 and 56 among the operands are no commands.
fn operands(rt: &impl Print) -> io::Result<()> {
    case(
        rt,
        b"edition 2, operands like commands: 5602 4C0056 4300054656 45",
    )?;
    case(
        rt,
        b"edition 1, operands like commands: 4C0056 4300055646 45",
    )
}

// The longest file is two bytes longer, and so is the last place of all.
fn full(rt: &impl Print) -> io::Result<()> {
    full_case(rt, b"edition 1, 16 lines, 256 calls: 45", 1)?;
    full_case(rt, b"edition 2, 16 lines, 256 calls: 45", 2)?;
    full_case(
        rt,
        b"edition 1, 16 lines, 256 calls, one byte more: 45 00",
        1,
    )?;
    full_case(rt, b"edition 2, 257 calls: 4300100000 45", 2)
}

// A case whose file begins with an edition, 16 lines and all 256 calls, and goes on as the text says.
fn full_case(rt: &impl Print, text: &[u8], edition: u8) -> io::Result<()> {
    let (name, behind) = cut(text, b':');
    let mut file = large_file_in_edition(edition, 16, 16, 60);
    let end = put_hex(behind, &mut file, 1330);
    show(rt, name, &file[..end])
}
