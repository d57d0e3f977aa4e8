// Document 02, A.4: the running common cycle after each line, shown by the file of the lines up to it with a call for each.
use crate::cases::case;
use std::io;

pub fn all(rt: &impl Print) -> io::Result<()> {
    three_lines(rt)?;
    to_the_longest(rt)?;
    behind_calls(rt)
}

// In two orders, which meet at 72.
fn three_lines(rt: &impl Print) -> io::Result<()> {
    case(rt, b"cycle of 12: 4C000C 4300000000 45")?;
    case(
        rt,
        b"cycle of 12, 18: 4C000C 4C0012 4300000000 4301000000 45",
    )?;
    case(
        rt,
        b"cycle of 12, 18, 8: 4C000C 4C0012 4C0008 4300000000 4301000000 4302000000 45",
    )?;
    case(rt, b"cycle of 8: 4C0008 4300000000 45")?;
    case(
        rt,
        b"cycle of 8, 18: 4C0008 4C0012 4300000000 4301000000 45",
    )?;
    case(
        rt,
        b"cycle of 8, 18, 12: 4C0008 4C0012 4C000C 4300000000 4301000000 4302000000 45",
    )
}

// 10,080 is the longest cycle. It is no multiple of 11, whose line is the twelfth command, at 33.
fn to_the_longest(rt: &impl Print) -> io::Result<()> {
    case(rt, b"cycle of 1: 4C0001 4300000000 45")?;
    case(
        rt,
        b"cycle of 1 to 2: 4C0001 4C0002 4300000000 4301000000 45",
    )?;
    case(
        rt,
        b"cycle of 1 to 3: 4C0001 4C0002 4C0003 4300000000 4301000000 4302000000 45",
    )?;
    case(
        rt,
        b"cycle of 1 to 4: 4C0001 4C0002 4C0003 4C0004 4300000000 4301000000 4302000000 4303000000 45",
    )?;
    case(
        rt,
        b"cycle of 1 to 5: 4C0001 4C0002 4C0003 4C0004 4C0005 4300000000 4301000000 4302000000 4303000000 4304000000 45",
    )?;
    case(
        rt,
        b"cycle of 1 to 6: 4C0001 4C0002 4C0003 4C0004 4C0005 4C0006 4300000000 4301000000 4302000000 4303000000 4304000000 4305000000 45",
    )?;
    case(
        rt,
        b"cycle of 1 to 7: 4C0001 4C0002 4C0003 4C0004 4C0005 4C0006 4C0007 4300000000 4301000000 4302000000 4303000000 4304000000 4305000000 4306000000 45",
    )?;
    case(
        rt,
        b"cycle of 1 to 8: 4C0001 4C0002 4C0003 4C0004 4C0005 4C0006 4C0007 4C0008 4300000000 4301000000 4302000000 4303000000 4304000000 4305000000 4306000000 4307000000 45",
    )?;
    case(
        rt,
        b"cycle of 1 to 9: 4C0001 4C0002 4C0003 4C0004 4C0005 4C0006 4C0007 4C0008 4C0009 4300000000 4301000000 4302000000 4303000000 4304000000 4305000000 4306000000 4307000000 4308000000 45",
    )?;
    case(
        rt,
        b"cycle of 1 to 9, 16: 4C0001 4C0002 4C0003 4C0004 4C0005 4C0006 4C0007 4C0008 4C0009 4C0010 4300000000 4301000000 4302000000 4303000000 4304000000 4305000000 4306000000 4307000000 4308000000 4309000000 45",
    )?;
    case(
        rt,
        b"cycle of 1 to 9, 16, 32: 4C0001 4C0002 4C0003 4C0004 4C0005 4C0006 4C0007 4C0008 4C0009 4C0010 4C0020 4300000000 4301000000 4302000000 4303000000 4304000000 4305000000 4306000000 4307000000 4308000000 4309000000 430A000000 45",
    )?;
    case(
        rt,
        b"11 behind 1 to 9, 16, 32: 4C0001 4C0002 4C0003 4C0004 4C0005 4C0006 4C0007 4C0008 4C0009 4C0010 4C0020 4C000B",
    )
}

// A line may be stated behind calls, accepted or refused. A period that divides the cycle leaves it.
fn behind_calls(rt: &impl Print) -> io::Result<()> {
    case(
        rt,
        b"line behind calls: 4C000C 4300000000 4C0012 4301000000 45",
    )?;
    case(
        rt,
        b"refused line behind calls: 4C05A0 4300000000 4C000B 4301000000 45",
    )?;
    case(
        rt,
        b"cycle unchanged by a divisor: 4C0048 4300000000 4C0018 4301000000 45",
    )
}
