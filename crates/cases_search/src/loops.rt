// Loop routes: a line's own pair caps its stop at its exact gap, and the cap's sum has a term for each call.
use crate::cases::case;
use std::io;

pub fn all(rt: &impl Print) -> io::Result<()> {
    one_line(rt)?;
    two_lines(rt)?;
    own_pair_in_the_cap(rt)?;
    a_term_for_each_call(rt)
}

// Period 10, offsets 2 and 5, and no other line: one try.
fn one_line(rt: &impl Print) -> io::Result<()> {
    let mut row = [7];
    case(
        rt,
        b"a loop alone",
        b"4C000A 4300000002 4300000005 45",
        &mut row,
        1,
    )
}

// Lines of 10 and 10, one stop, line 0 at 0 and 4, line 1 at 0: 7 is 3 away from 10 and from 4. All ten starts are tried, since the cap is 3
// by 10 / 3 and the first 3 comes at 7, behind which the last two are dropped at once.
fn two_lines(rt: &impl Print) -> io::Result<()> {
    let mut row = [7, 7];
    case(
        rt,
        b"a loop and a line",
        b"4C000A 4C000A 4300000000 4300000004 4301000000 45",
        &mut row,
        1000000,
    )
}

// Three lines of 6: the first two meet at stop 1, the third calls at stop 0 twice, 1 apart. Capped at half its period, 3, stop 0 would seem to
// allow more than 1, and the search would take 37 tries.
fn own_pair_in_the_cap(rt: &impl Print) -> io::Result<()> {
    let mut row = [7, 7, 7];
    case(
        rt,
        b"an own pair in the cap",
        b"4C0006 4C0006 4C0006 4300010000 4301010000 4302000000 4302000001 45",
        &mut row,
        1000000,
    )
}

// Periods 12, 3 and 4. At stop 0 lines 0 and 2 meet, line 2 twice: 12 / (1 + 3 + 3) is 1, with one term for each line it would be 3, and the
// search would take 16 tries.
fn a_term_for_each_call(rt: &impl Print) -> io::Result<()> {
    let mut row = [7, 7, 7];
    case(
        rt,
        b"a term for each call",
        b"4C000C 4C0003 4C0004 4300000000 4300010000 4301010000 4302000000 4302000002 45",
        &mut row,
        1000000,
    )
}
