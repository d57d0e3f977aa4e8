// Rows of other lengths, and files that are refused: the rows stay untouched.
ghost use Rattle.std.specs.Prelude.{◌≤◌};

use crate::cases::{show_answer, show_sums};
use cases_typed::papers::ONE_LINE;
use cases_typed::put_hex;
use cases_typed::show::show_name;
use std::io;

pub fn all(rt: &impl Print) -> io::Result<()> {
    class_rows(rt)?;
    weight_rows(rt)?;
    both_rows(rt)?;
    refused_files(rt)
}

// A case: its name, a file in hexadecimal, and rows that are the first places of rows of 4,096. The sums are those of all 4,096 places.
fn lengths(
    rt: &impl Print,
    name: &[u8],
    text: &[u8],
    class_places: usize,
    weight_places: usize,
) -> io::Result<()>
    requires { (class_places ≤ 4096) × (weight_places ≤ 4096) }
{
    let mut file = [0u8; 128];
    let end = put_hex(text, &mut file, 0);
    show_name(rt, name)?;
    let mut classes = [7u8; 4096];
    let mut weights = [500u16; 4096];
    let answer = network::classes::classes(
        &file[..end],
        &mut classes[..class_places],
        &mut weights[..weight_places],
    );
    show_answer(rt, answer)?;
    show_sums(rt, &classes, &weights)
}

// Of the file with one line and one call.
fn one_line(
    rt: &impl Print,
    name: &[u8],
    class_places: usize,
    weight_places: usize,
) -> io::Result<()>
    requires { (class_places ≤ 4096) × (weight_places ≤ 4096) }
{
    lengths(rt, name, &ONE_LINE, class_places, weight_places)
}

// The class row is too short or too long.
fn class_rows(rt: &impl Print) -> io::Result<()> {
    one_line(rt, b"class row of 0", 0, 64)?;
    one_line(rt, b"class row of 63", 63, 64)?;
    one_line(rt, b"class row of 65", 65, 64)?;
    one_line(rt, b"class row of 4096", 4096, 64)
}

// The weight row is.
fn weight_rows(rt: &impl Print) -> io::Result<()> {
    one_line(rt, b"weight row of 0", 64, 0)?;
    one_line(rt, b"weight row of 63", 64, 63)?;
    one_line(rt, b"weight row of 65", 64, 65)?;
    one_line(rt, b"weight row of 4096", 64, 4096)
}

// Both are, and neither is.
fn both_rows(rt: &impl Print) -> io::Result<()> {
    one_line(rt, b"rows of 0", 0, 0)?;
    one_line(rt, b"rows of 4096", 4096, 4096)?;
    one_line(rt, b"rows of 64", 64, 64)
}

// The file's ground comes before ground 17.
fn refused_files(rt: &impl Print) -> io::Result<()> {
    lengths(rt, b"refused, rows of 64", b"4C0000", 64, 64)?;
    lengths(
        rt,
        b"refused, class row of 63",
        b"4C000F 4300000008",
        63,
        64,
    )?;
    lengths(
        rt,
        b"refused, weight row of 65",
        b"4C000F 4300000008 45 00",
        64,
        65,
    )?;
    lengths(rt, b"refused, rows of 0", b"", 0, 0)
}
