// One case of the archive call: a line says what it answers, and what the row holds afterwards.
ghost use Rattle.std.specs.Prelude.{◌≤◌};

use crate::shown::{FILL, show_answer, show_row, written};
use cases_typed::show::show_name;
use cases_typed::{cut, put_hex};
use std::io;

// A case: its name, a colon, and a file of at most 64 bytes in hexadecimal, as the paper writes files. The row that is lent has so many
// places.
pub fn case(rt: &impl Print, text: &[u8], places: usize) -> io::Result<()>
    requires { places ≤ 64 }
{
    let (name, file) = cut(text, b':');
    named(rt, name, file, places)
}

// A case whose name stands by itself.
pub fn named(rt: &impl Print, name: &[u8], text: &[u8], places: usize) -> io::Result<()>
    requires { places ≤ 64 }
{
    let mut file = [0u8; 64];
    let end = put_hex(text, &mut file, 0);
    show(rt, name, &file[..end], places)
}

// A case whose file is what the archive call wrote for the text's file.
pub fn again(rt: &impl Print, name: &[u8], text: &[u8]) -> io::Result<()> {
    let mut file = [0u8; 64];
    let end = put_hex(text, &mut file, 0);
    let mut form = [FILL; 64];
    let _ = network::archive::archive(&file[..end], &mut form);
    let length = written(&form);
    show(rt, name, &form[..length], 64)
}

// The answer for a file and a row that is the first places of 64, on a line of its own. All 64 are shown, so that a byte written behind
// the row shows too.
fn show(rt: &impl Print, name: &[u8], file: &[u8], places: usize) -> io::Result<()>
    requires { places ≤ 64 }
{
    let mut row = [FILL; 64];
    show_name(rt, name)?;
    let answer = network::archive::archive(file, &mut row[..places]);
    show_answer(rt, answer)?;
    show_row(rt, &row)
}
