// One case: a file and sheets are given to one of the calls, and a line says what it hands back or answers.
use crate::show::{show_key, show_mark, show_part};
use cases_typed::cut;
use cases_typed::lines::{put_named, put_numbers};
use cases_typed::show::show_name;
use std::io;

// A case: a word for the call, which its first letter tells, and behind a blank its name, a colon, its file, a stroke ..
pub fn case(rt: &impl Print, text: &[u8]) -> io::Result<()> {
    let (word, text) = cut(text, b' ');
    let mut file = [0u8; 2048];
    let (name, end, rest) = put_named(text, &mut file);
    show_name(rt, name)?;
    on_sheet(rt, word, &file[..end], rest)
}

// .. the starts of a sheet, one more stroke, and what the call takes beside it.
fn on_sheet(rt: &impl Print, word: &[u8], file: &[u8], text: &[u8]) -> io::Result<()> {
    let (starts, text) = cut(text, b'|');
    let mut row = [0i32; 32];
    let count = put_numbers(starts, &mut row);
    let sheet = &row[..count];
    match word.first() {
        Some(b'b') => beside(rt, file, sheet, text),
        Some(b'p') => parts(rt, file, sheet, text),
        Some(b'k') => by_key(rt, file, sheet, text),
        _ => marked(rt, file, sheet, text),
    }
}

// Beside another sheet.
fn beside(rt: &impl Print, file: &[u8], first: &[i32], text: &[u8]) -> io::Result<()> {
    let mut starts = [0i32; 32];
    let count = put_numbers(text, &mut starts);
    better(rt, file, first, &starts[..count])
}

// Two parts of one row, both from its beginning.
fn parts(rt: &impl Print, file: &[u8], row: &[i32], text: &[u8]) -> io::Result<()> {
    let mut sizes = [0u32; 8];
    put_numbers(text, &mut sizes);
    let [end, other, ..] = sizes;
    match (row.get(..end as usize), row.get(..other as usize)) {
        (Some(first), Some(second)) => better(rt, file, first, second),
        _ => Ok(()),
    }
}

fn better<'a>(rt: &impl Print, file: &[u8], first: &'a [i32], second: &'a [i32]) -> io::Result<()> {
    let part = examination::better::better(file, first, second);
    show_part(rt, part)
}

// Beside a key.
fn by_key(rt: &impl Print, file: &[u8], sheet: &[i32], text: &[u8]) -> io::Result<()> {
    let mut starts = [0i32; 32];
    let count = put_numbers(text, &mut starts);
    let answer = examination::by_key::by_key(file, sheet, &starts[..count]);
    show_key(rt, answer)
}

// With a budget.
fn marked(rt: &impl Print, file: &[u8], sheet: &[i32], text: &[u8]) -> io::Result<()> {
    let mut sizes = [0u32; 8];
    put_numbers(text, &mut sizes);
    let answer = examination::marking::mark(file, sheet, sizes[0]);
    show_mark(rt, answer)
}
