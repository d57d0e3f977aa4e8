// One case: a file, a start row and a budget are given to the search call, or these and a wanted gap to the call for that, and a line says
// what it answers.
use cases_typed::put_hex;
use cases_typed::show::{show_name, show_rating, show_refusal, show_row};
use network::Rating;
use network::grounds::Refusal;
use search::{SearchAnswer, WantedAnswer};
use std::io;

// A case: its name, a file of at most 64 bytes in hexadecimal, as the paper writes files, what the start row holds before, and the
// budget.
pub fn case(
    rt: &impl Print,
    name: &[u8],
    text: &[u8],
    row: &mut [i32],
    budget: u32,
) -> io::Result<()> {
    let mut file = [0u8; 64];
    let end = put_hex(text, &mut file, 0);
    show_name(rt, name)?;
    let answer = search::entry::search(&file[..end], row, budget);
    show(rt, answer)?;
    print!(rt; ", row")?;
    show_row(rt, row)?;
    println!(rt)
}

// A case with a wanted gap.
pub fn wanted_case(
    rt: &impl Print,
    name: &[u8],
    text: &[u8],
    row: &mut [i32],
    gap: u16,
    budget: u32,
) -> io::Result<()> {
    let mut file = [0u8; 64];
    let end = put_hex(text, &mut file, 0);
    show_name(rt, name)?;
    let answer = search::wanted::wanted(&file[..end], row, gap, budget);
    show_wanted(rt, answer)?;
    print!(rt; ", row")?;
    show_row(rt, row)?;
    println!(rt)
}

// What the search answers.
fn show(rt: &impl Print, answer: Result<SearchAnswer, Refusal>) -> io::Result<()> {
    match answer {
        Ok(SearchAnswer::Finished { best, tries }) => {
            print!(rt; " finished")?;
            show_best(rt, best, tries)
        }
        Ok(SearchAnswer::Stopped { best, tries }) => {
            print!(rt; " stopped")?;
            show_best(rt, best, tries)
        }
        Ok(SearchAnswer::StoppedWithNone { tries }) => {
            print!(rt; " stopped with none, tries {tries}")
        }
        Err(refusal) => show_refusal(rt, refusal.reason.number(), refusal.place),
    }
}

fn show_best(rt: &impl Print, best: Rating, tries: u32) -> io::Result<()> {
    show_rating(rt, best.least, best.sum)?;
    print!(rt; ", tries {tries}")
}

// What is answered to a wanted gap.
fn show_wanted(rt: &impl Print, answer: Result<WantedAnswer, Refusal>) -> io::Result<()> {
    match answer {
        Ok(WantedAnswer::Found { tries }) => show_ended(rt, " found", tries),
        Ok(WantedAnswer::None { tries }) => show_ended(rt, " none", tries),
        Ok(WantedAnswer::Stopped { tries }) => show_ended(rt, " stopped", tries),
        Err(refusal) => show_refusal(rt, refusal.reason.number(), refusal.place),
    }
}

// How it ended, and the tries. Two writes, as ever.
fn show_ended(rt: &impl Print, how: &str, tries: u32) -> io::Result<()> {
    print!(rt; "{how}")?;
    print!(rt; ", tries {tries}")
}
