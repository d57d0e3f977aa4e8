// Which stops are alike, and the rows that say so.
use crate::cases::{case, large_case, named};
use cases_typed::papers::P9;
use std::io;

pub fn all(rt: &impl Print) -> io::Result<()> {
    paper(rt)?;
    remainders(rt)?;
    lines(rt)?;
    pairs(rt)?;
    one_line(rt)?;
    unserved(rt)?;
    large(rt)?;
    loops(rt)
}

fn paper(rt: &impl Print) -> io::Result<()> {
    named(rt, b"P9", &P9, 4)
}

// Differences that agree only by their remainder. Of periods 12 and 18 it is by 6: 5, -7 and 11 leave 5, and 1 is another. By 1,440
// -65,535 and -64,095 leave 705, and 65,535 leaves 735. By 1 all leave 0.
fn remainders(rt: &impl Print) -> io::Result<()> {
    case(
        rt,
        b"remainders by 6: 4C000C 4C0012 4300000000 4301000005 4300010007 4301010000 4300020000 430102000B 4300030000 4301030001 45",
        5,
    )?;
    case(
        rt,
        b"remainders by 1440: 4C05A0 4C05A0 4300000000 430100FFFF 430001FFFF 4301010000 43000205A0 430102FFFF 45",
        4,
    )?;
    case(
        rt,
        b"remainders by 1: 4C0007 4C0008 4300000000 4301000003 4300010005 4301010000 45",
        3,
    )
}

// A stop with some of the lines of another isn't alike to it, whichever of the two is the lower.
fn lines(rt: &impl Print) -> io::Result<()> {
    case(
        rt,
        b"fewer lines: 4C000A 4C000A 4300000000 4301000000 4300010000 4301020000 45",
        4,
    )?;
    case(
        rt,
        b"more lines: 4C000A 4C000A 4300000000 4300010000 4301010000 45",
        3,
    )
}

// Three lines, whose pairs have the divisors 2, 1 and 3. Stop 1 agrees with stop 0 in all pairs, stop 2 not in that of lines 1 and 2, stop
// 3 not in that of lines 0 and 1; at stop 4 line 2 doesn't call.
fn pairs(rt: &impl Print) -> io::Result<()> {
    case(
        rt,
        b"pairs: 4C0004 4C0006 4C0009 4300000000 4301000000 4302000000 4300010000 4301010002 4302010005 4300020000 4301020002 4302020000 4300030001 4301030000 4302030000 4300040000 4301040000 45",
        6,
    )
}

// Stops with one line only are alike by that line, whatever the offsets; lines of one period are still two.
fn one_line(rt: &impl Print) -> io::Result<()> {
    case(
        rt,
        b"one line each: 4C000A 4C000A 4300000000 4301010000 4300020003 4301030004 4300040000 4301040005 45",
        6,
    )
}

// Stops without a call stand between, before and behind the others, and the file names the highest first.
fn unserved(rt: &impl Print) -> io::Result<()> {
    case(
        rt,
        b"unserved between: 4C000F 4300050009 4300010000 4300030007 45",
        7,
    )?;
    case(rt, b"stop 63 alone: 4C000F 43003F0000 45", 1)
}

// Stops 60 to 63 are alike to stops 0 to 3 where the period is 60.
fn large(rt: &impl Print) -> io::Result<()> {
    large_case(rt, b"64 stops of one line: 45", 1, 60, 64, 3)?;
    large_case(rt, b"64 stops of four lines, period 1: 45", 4, 1, 256, 4)?;
    large_case(rt, b"64 stops of four lines, period 60: 45", 4, 60, 256, 5)?;
    large_case(
        rt,
        b"16 stops of sixteen lines, period 60: 45",
        16,
        60,
        256,
        4,
    )
}

// Loop routes, period 10. Calls are matched in order of offset as stated, whatever the file's order: 2, 5 and 12, 15 both differ by -3, which
// leaves 7, and 5, 12 by -7, which leaves 3, though its gap is 3 too; in the order of the remainders, 2 and 5, it would be alike. Stop 3 has one
// call. 0, 3 and 0, 7 have the same gap and are not alike. Two lines: equally many of each, 2 and 1 beside 1 and 2.
fn loops(rt: &impl Print) -> io::Result<()> {
    case(
        rt,
        b"matched by offset: 4C000A 4300000002 4300000005 430001000F 430001000C 430002000C 4300020005 4300030000 45",
        5,
    )?;
    case(
        rt,
        b"same gap: 4C000A 4300000000 4300000003 4300010000 4300010007 45",
        3,
    )?;
    case(
        rt,
        b"two and one, one and two: 4C000A 4C000A 4300000000 4300000003 4301000003 4300010000 4301010000 4301010003 45",
        3,
    )?;
    case(
        rt,
        b"the other line's pairs: 4C000A 4C000A 4300000000 4300000003 4301000005 430001000D 430001000A 4301010005 4300020000 4300020003 4301020006 45",
        4,
    )
}
