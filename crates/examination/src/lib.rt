// The examination: better-of-two, mark, marks out of a hundred, and the calls that `examination_c` exports for the host.
#![tactic(auto)]

pub mod better;
pub mod by_key;
pub mod bytes;
pub mod exports;
mod hundred;
pub mod marking;

ghost use Rattle.std.specs.Prelude.{◌≤◌};

use network::Rating;

// Which of two sheets is the better. Its name and not the sheet itself: the export compares rows of its own, and answers which.
#[derive(Clone, Copy)]
pub enum Choice {
    First,
    Second,
    Neither,
}

// What the mark call answers: decided, the sheet's rating, the best rating, whether they are equal, the mark out of a hundred, and the tries; or
// undecided, the sheet's rating and the tries, and no mark. Whether they are equal is a number of the answer, and no value hangs on it.
#[derive(Clone, Copy)]
pub enum MarkAnswer {
    Decided {
        sheet: Rating,
        best: Rating,
        equal: bool,
        hundred: OutOfHundred,
        tries: u32,
    },
    Undecided {
        sheet: Rating,
        tries: u32,
    },
}

// A mark out of a hundred: the whole part, and what is left.
#[derive(Clone, Copy)]
pub struct OutOfHundred {
    pub mark: u32,
    pub remainder: u32,
}

// A sheet taken apart: how many starts it has, and a row that begins with them. More starts than any network has lines stand for a byte count that
// is no whole number of starts, or is too large.
// A row of fixed length: no call allocates, docs/ABI.md.
#[derive(Clone, Copy)]
pub struct Sheet {
    pub count: usize,
    pub row: [i32; Sheet::PLACES],
    pub ghost within: { count ≤ 17 },
}

impl Sheet {
    // One more than a network has lines.
    pub const PLACES: usize = 17;
}
