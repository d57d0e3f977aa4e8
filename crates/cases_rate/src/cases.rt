// One case: a file and a sheet are given to the rate call or the gaps call, and a line says what it answers.
use crate::gap_rows::show_gaps;
use cases_typed::cut;
use cases_typed::lines::{put_named, put_numbers};
use cases_typed::show::{show_name, show_rating, show_refusal};
use network::Rating;
use network::grounds::Refusal;
use std::io;

// A case: its name, and its file; behind a stroke the starts of its sheet; and for the gaps call, behind one more, how many places are shown.
pub fn case(rt: &impl Print, text: &[u8]) -> io::Result<()> {
    let mut file = [0u8; 2048];
    let (name, end, rest) = put_named(text, &mut file);
    on_sheet(rt, name, &file[..end], rest)
}

fn on_sheet(rt: &impl Print, name: &[u8], file: &[u8], text: &[u8]) -> io::Result<()> {
    let (starts, shown) = cut(text, b'|');
    let mut sheet = [0i32; 32];
    let count = put_numbers(starts, &mut sheet);
    if text.contains(&b'|') {
        show_gaps(rt, name, file, &sheet[..count], shown)
    } else {
        show(rt, name, file, &sheet[..count])
    }
}

// The rate call's answer for a file and a sheet, on a line of its own.
fn show(rt: &impl Print, name: &[u8], file: &[u8], sheet: &[i32]) -> io::Result<()> {
    show_name(rt, name)?;
    let answer = network::rate::rate(file, sheet);
    show_answer(rt, answer)?;
    println!(rt)
}

// The rating, or the refusal.
pub fn show_answer(rt: &impl Print, answer: Result<Rating, Refusal>) -> io::Result<()> {
    match answer {
        Ok(Rating { least, sum }) => {
            print!(rt; " rated")?;
            show_rating(rt, least, sum)
        }
        Err(refusal) => show_refusal(rt, refusal.reason.number(), refusal.place),
    }
}
