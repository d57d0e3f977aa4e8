// A wanted gap: the first timetable of the walk that reaches it, none, or stopped, with budgets just at and below what they take.
use crate::cases::wanted_case;
use cases_typed::papers::{ONE_LINE, P1, P8, P9};
use std::io;

pub fn all(rt: &impl Print) -> io::Result<()> {
    two_lines(rt)?;
    other_networks(rt)?;
    two_stops(rt)?;
    lone_stops(rt)?;
    loops(rt)?;
    refusals(rt)
}

// P1's network, whose stop is capped at 2: line 1 has gaps of 1, 0, 1 and 2 at 0 to 3.
fn p1(rt: &impl Print, name: &[u8], gap: u16, budget: u32) -> io::Result<()> {
    let mut row = [7, 7];
    wanted_case(rt, name, &P1, &mut row, gap, budget)
}

fn two_lines(rt: &impl Print) -> io::Result<()> {
    p1(rt, b"P1, wanted 2", 2, 1000000)?;
    p1(rt, b"P1, wanted 2, budget 5", 2, 5)?;
    p1(rt, b"P1, wanted 2, budget 4", 2, 4)?;
    p1(rt, b"P1, wanted 1", 1, 1000000)?;
    p1(rt, b"P1, wanted 3", 3, 1000000)?;
    p1(rt, b"P1, wanted 3, budget 1", 3, 1)?;
    p1(rt, b"P1, wanted 3, budget 0", 3, 0)?;
    p1(rt, b"P1, wanted 65,535, budget 1", 65535, 1)?;
    p1(rt, b"P1, wanted 0, budget 2", 0, 2)?;
    p1(rt, b"P1, wanted 0, budget 1", 0, 1)?;
    p1(rt, b"P1, wanted 0, budget 0", 0, 0)
}

// P9's best, 3 and 11, is at 4; the first with 3 is at 3, and its sum is 10. P8's stop 1 has line 2 alone, with a period of 12.
fn other_networks(rt: &impl Print) -> io::Result<()> {
    let mut pair = [7, 7];
    wanted_case(rt, b"P9, wanted 3", &P9, &mut pair, 3, 4294967295)?;
    let mut other = [7, 7];
    wanted_case(rt, b"P9, wanted 4", &P9, &mut other, 4, 4294967295)?;
    let mut row = [7, 7, 7];
    wanted_case(rt, b"P8, wanted 13", &P8, &mut row, 13, 1000000)?;
    wanted_case(rt, b"P8, wanted 12", &P8, &mut row, 12, 1000000)
}

// Two lines of 4 that meet at two stops, with offsets 0 and 0, 0 and 1: each stop allows 2, and no start gives 2 at both. The fifth try is
// the last that is due.
fn meets_twice(rt: &impl Print, name: &[u8], budget: u32) -> io::Result<()> {
    let mut row = [7, 7];
    let file = b"4C0004 4C0004 4300000000 4301000000 4300010000 4301010001 45";
    wanted_case(rt, name, file, &mut row, 2, budget)
}

fn two_stops(rt: &impl Print) -> io::Result<()> {
    meets_twice(rt, b"two stops, wanted 2", 1000000)?;
    meets_twice(rt, b"two stops, wanted 2, budget 5", 5)?;
    meets_twice(rt, b"two stops, wanted 2, budget 4", 4)
}

// A stop with one call counts with its line's period.
fn lone(rt: &impl Print, name: &[u8], gap: u16) -> io::Result<()> {
    let mut row = [7];
    wanted_case(rt, name, &ONE_LINE, &mut row, gap, 1)
}

fn lone_stops(rt: &impl Print) -> io::Result<()> {
    lone(rt, b"one line, wanted 15", 15)?;
    lone(rt, b"one line, wanted 16", 16)
}

// Period 10, offsets 2 and 5: a gap of 3, whatever the start.
fn own_pair(rt: &impl Print, name: &[u8], gap: u16) -> io::Result<()> {
    let mut row = [7];
    wanted_case(
        rt,
        name,
        b"4C000A 4300000002 4300000005 45",
        &mut row,
        gap,
        1,
    )
}

fn loops(rt: &impl Print) -> io::Result<()> {
    own_pair(rt, b"a loop, wanted 3", 3)?;
    own_pair(rt, b"a loop, wanted 4", 4)
}

// The file's ground first, then ground 16; the row stays as it was.
fn refusals(rt: &impl Print) -> io::Result<()> {
    let mut none: [i32; 0] = [];
    let mut short = [7];
    let mut fits = [7, 7];
    let mut long = [7, 7, 7];
    wanted_case(rt, b"no row, wanted 2", &P1, &mut none, 2, 21)?;
    wanted_case(rt, b"a short row, wanted 2", &P1, &mut short, 2, 21)?;
    wanted_case(rt, b"a long row, wanted 65,535", &P1, &mut long, 65535, 0)?;
    wanted_case(
        rt,
        b"a period of 1,441, wanted 0",
        b"4C05A1 45",
        &mut fits,
        0,
        21,
    )?;
    wanted_case(
        rt,
        b"a cut file and a long row, wanted 2",
        &P1[..33],
        &mut long,
        2,
        21,
    )
}
