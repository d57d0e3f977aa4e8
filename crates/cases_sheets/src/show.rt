// What the calls hand back and answer, in words and numbers.
use cases_typed::show::{show_rating, show_refusal, show_row};
use examination::{MarkAnswer, OutOfHundred};
use network::grounds::Refusal;
use std::io;

// The part that better-of-two hands back.
pub fn show_part(rt: &impl Print, part: &[i32]) -> io::Result<()> {
    if part.is_empty() {
        print!(rt; " the empty part")?;
    }
    show_row(rt, part)?;
    println!(rt)
}

// What mark answers.
pub fn show_mark(rt: &impl Print, answer: Result<MarkAnswer, Refusal>) -> io::Result<()> {
    match answer {
        Ok(marked) => show_marked(rt, marked),
        Err(refusal) => {
            show_refusal(rt, refusal.reason.number(), refusal.place)?;
            println!(rt)
        }
    }
}

fn show_marked(rt: &impl Print, answer: MarkAnswer) -> io::Result<()> {
    match answer {
        MarkAnswer::Decided {
            sheet,
            best,
            equal,
            hundred,
            tries,
        } => {
            print!(rt; " decided")?;
            show_rating(rt, sheet.least, sheet.sum)?;
            print!(rt; " best")?;
            show_rating(rt, best.least, best.sum)?;
            show_equal(rt, equal)?;
            show_hundred(rt, hundred)?;
            println!(rt; " tries {tries}")
        }
        MarkAnswer::Undecided { sheet, tries } => {
            print!(rt; " undecided")?;
            show_rating(rt, sheet.least, sheet.sum)?;
            println!(rt; " tries {tries}")
        }
    }
}

// What the mark by a key answers.
pub fn show_key(rt: &impl Print, answer: Result<OutOfHundred, Refusal>) -> io::Result<()> {
    match answer {
        Ok(hundred) => show_hundred(rt, hundred)?,
        Err(refusal) => show_refusal(rt, refusal.reason.number(), refusal.place)?,
    }
    println!(rt)
}

// A mark out of a hundred with its remainder.
fn show_hundred(rt: &impl Print, hundred: OutOfHundred) -> io::Result<()> {
    let OutOfHundred { mark, remainder } = hundred;
    print!(rt; " mark {mark} remainder {remainder}")
}

fn show_equal(rt: &impl Print, equal: bool) -> io::Result<()> {
    if equal {
        print!(rt; " equal")
    } else {
        print!(rt; " not equal")
    }
}
