// Each limit just inside, and what a ride counts from.
use crate::cases::{case, full_case, large_case};
use std::io;

pub fn all(rt: &impl Print) -> io::Result<()> {
    lines(rt)?;
    calls(rt)?;
    rides(rt)?;
    line_of_latest_call(rt)?;
    place_of_latest_call(rt)?;
    loops(rt)
}

// Lines, periods and cycles. 160 and 63 make 10,080, of which 1,440 is a divisor.
fn lines(rt: &impl Print) -> io::Result<()> {
    case(rt, b"period 1: 4C0001 4300000000 45")?;
    case(
        rt,
        b"periods 1440 twice: 4C05A0 4C05A0 4300000000 4301000000 45",
    )?;
    case(
        rt,
        b"periods 60 and 84: 4C003C 4C0054 4300000000 4301000000 45",
    )?;
    case(
        rt,
        b"periods 160, 63 and 1440: 4C00A0 4C003F 4C05A0 4300000000 4301000000 4302000000 45",
    )?;
    large_case(rt, b"16 lines: 45", 16, 16, 16)
}

// Stops and calls. Of the 256 calls of 16 lines the last is line 15's at stop 15.
fn calls(rt: &impl Print) -> io::Result<()> {
    case(rt, b"stop 63: 4C000F 43003F0000 45")?;
    large_case(rt, b"64 stops of one line: 45", 1, 1, 64)?;
    large_case(
        rt,
        b"64 stops of one line and stop 64: 4300400000",
        1,
        1,
        64,
    )?;
    full_case(rt, b"256 calls of 16 lines: 45")?;
    large_case(rt, b"256 calls of 4 lines: 45", 4, 4, 256)?;
    large_case(rt, b"call 256 by 46: 460F0F0001 45", 16, 16, 255)
}

// Offsets. 5555 is a third of FFFF.
fn rides(rt: &impl Print) -> io::Result<()> {
    case(rt, b"offset 65535: 4C000F 430000FFFF 45")?;
    case(rt, b"offset 65534, ride 1: 4C000F 430000FFFE 4600010001 45")?;
    case(rt, b"offset 0, ride 65535: 4C000F 4300000000 460001FFFF 45")?;
    case(rt, b"offset 65535, ride 0: 4C000F 430000FFFF 4600010000 45")?;
    case(
        rt,
        b"two rides to 65535: 4C000F 4300005555 4600015555 4600025555 45",
    )?;
    case(
        rt,
        b"two rides to 65536: 4C000F 4300005555 4600015555 4600025556 45",
    )
}

// Line 0 is at 100, then by 46 at 300, then line 1 calls; 65,235 more make 65,535. If line 1's call counted, the first file would be
// refused and the second accepted; if line 0's first call counted, the second would be accepted.
fn line_of_latest_call(rt: &impl Print) -> io::Result<()> {
    case(
        rt,
        b"300, line 1 at 65535, ride 65235: 4C000F 4C0014 4300000064 46000100C8 430100FFFF 460002FED3 45",
    )?;
    case(
        rt,
        b"300, line 1 at 0, ride 65236: 4C000F 4C0014 4300000064 46000100C8 4301000000 460002FED4 45",
    )?;
    case(
        rt,
        b"line 0 at 65535, line 1 at 0, ride 1 of line 1: 4C000F 4C0014 430000FFFF 4301000000 4601010001 45",
    )
}

// The latest call in the file counts, by 43 or 46: not the first, nor the largest offset, nor the highest stop.
fn place_of_latest_call(rt: &impl Print) -> io::Result<()> {
    case(
        rt,
        b"65535, 0, ride 65535: 4C000F 430000FFFF 4300010000 460002FFFF 45",
    )?;
    case(
        rt,
        b"0, 10, 65520, ride 15: 4C000F 4300050000 460002000A 430003FFF0 460001000F 45",
    )?;
    case(
        rt,
        b"0, 10, 65520, ride 16: 4C000F 4300050000 460002000A 430003FFF0 4600010010 45",
    )
}

// Loop routes: a line calls twice at a stop, by either command, and two calls with equal offsets are two calls.
fn loops(rt: &impl Print) -> io::Result<()> {
    case(rt, b"twice at a stop: 4C000A 4300000002 4300000005 45")?;
    case(
        rt,
        b"twice with equal offsets: 4C000A 4300000002 4300000002 45",
    )?;
    case(rt, b"twice by a ride: 4C000F 4300000008 4600000001 45")?;
    case(
        rt,
        b"twice at two stops in turn: 4C000A 4300000000 4600010001 4600000001 4600010001 45",
    )?;
    large_case(
        rt,
        b"call 256 the line's second there: 4300000000 45",
        16,
        16,
        255,
    )
}
