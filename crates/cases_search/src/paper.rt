// The paper's own searches, and their budgets just at and below what they take.
use crate::cases::case;
use cases_typed::papers::{ONE_LINE, P1, P7, P8, P9};
use std::io;

pub fn all(rt: &impl Print) -> io::Result<()> {
    two_lines(rt)?;
    three_lines(rt)?;
    other_networks(rt)?;
    caps_by_half_divisors(rt)?;
    one_line(rt)
}

// P1's network. It takes 21 tries: line 0 at 0, then line 1 at 0 to 19.
fn p1(rt: &impl Print, name: &[u8], budget: u32) -> io::Result<()> {
    let mut row = [7, 7];
    case(rt, name, &P1, &mut row, budget)
}

fn two_lines(rt: &impl Print) -> io::Result<()> {
    p1(rt, b"P3", 21)?;
    p1(rt, b"P4", 20)?;
    p1(rt, b"P5", 2)?;
    p1(rt, b"P6", 1)?;
    p1(rt, b"P1 with budget 0", 0)?;
    p1(rt, b"P1 with budget 22", 22)?;
    p1(rt, b"P1 with the largest budget", 4294967295)
}

// P7's network, which takes 51 tries.
fn p7(rt: &impl Print, name: &[u8], budget: u32) -> io::Result<()> {
    let mut row = [7, 7, 7];
    case(rt, name, &P7, &mut row, budget)
}

// A search that ends just at its budget is finished; with one try less it is stopped, though its best is the same.
fn three_lines(rt: &impl Print) -> io::Result<()> {
    p7(rt, b"P7", 1000000)?;
    p7(rt, b"P7 with budget 51", 51)?;
    p7(rt, b"P7 with budget 50", 50)?;
    p7(rt, b"P7 with budget 3", 3)?;
    p7(rt, b"P7 with budget 2", 2)
}

fn other_networks(rt: &impl Print) -> io::Result<()> {
    let mut row = [7, 7, 7];
    case(rt, b"P8", &P8, &mut row, 1000000)?;
    let mut pair = [7, 7];
    case(rt, b"P9", &P9, &mut pair, 1000000)
}

// Periods 15, 20 and 4 at one stop: 15 and 4 have no common divisor but 1, so that the cap is 0, the half of 1 rounded down, and every try
// after the first timetable is dropped. By the even spacing alone, 2, or with halves rounded up, 1, it would take 89 tries.
fn caps_by_half_divisors(rt: &impl Print) -> io::Result<()> {
    let mut row = [7, 7, 7];
    case(
        rt,
        b"caps by half divisors",
        b"4C000F 4C0014 4C0004 4300000000 4301000000 4302000000 45",
        &mut row,
        1000000,
    )
}

// One line: it is tried at 0 only.
fn lone(rt: &impl Print, name: &[u8], budget: u32) -> io::Result<()> {
    let mut row = [7];
    case(rt, name, &ONE_LINE, &mut row, budget)
}

fn one_line(rt: &impl Print) -> io::Result<()> {
    lone(rt, b"one line", 1)?;
    lone(rt, b"one line with budget 0", 0)?;
    lone(rt, b"one line with budget 2", 2)
}
