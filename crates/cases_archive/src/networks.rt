// The archive form of networks, typed in one way and another.
use crate::cases::{again, case, named};
use cases_typed::papers::{P1, P9};
use std::io;

// Line 0 calls at stops 1 and 3, line 1 at 0 and 2.
const IN_TURN: [u8; 60] = *b"4C000A 4C000C 4300030004 4301000001 4301020003 4300010002 45";

// The 46 of 1 counts from the 100 of stop 9 before it, that of 65,528 from the 7 of stop 4, though both come to stand elsewhere.
pub const RIDES: [u8; 53] = *b"4C003C 4300090064 4600010001 4300040007 460000FFF8 45";

pub fn all(rt: &impl Print) -> io::Result<()> {
    paper(rt)?;
    typed_otherwise(rt)?;
    order(rt)?;
    rides(rt)?;
    other_networks(rt)?;
    loops(rt)?;
    twice(rt)
}

// P1 is typed as the archive has it; P9 by stop and then line.
fn paper(rt: &impl Print) -> io::Result<()> {
    named(rt, b"P1", &P1, 64)?;
    named(rt, b"P9", &P9, 64)
}

// The network of P1 in other words: the same bytes.
fn typed_otherwise(rt: &impl Print) -> io::Result<()> {
    case(
        rt,
        b"P1, line 1 behind line 0's call: 4C000F 4300000008 4C0014 4301000011 45",
        64,
    )?;
    case(
        rt,
        b"P1, line 1 called first: 4C000F 4C0014 4301000011 4300000008 45",
        64,
    )
}

// By line, then stop, whatever the offsets. By stop and then line, line 1's call at stop 0 would come first.
fn order(rt: &impl Print) -> io::Result<()> {
    case(
        rt,
        b"stops out of order: 4C000F 4300050009 4300010000 4300030007 45",
        64,
    )?;
    named(rt, b"lines at stops in turn", &IN_TURN, 64)?;
    case(rt, b"high bytes: 4C05A0 43003FFF00 43000000FF 45", 64)
}

// Every 46 becomes the 43 with the offset that it comes to in the file's order: 7 and 65,528 are 65,535. Of two lines each counts from its
// own latest call: line 0 from 8 at stop 1 to 9 at stop 2, line 1 from 17 at stop 3 to 18 at stop 0. 4546 and 4645 are 8B8B.
fn rides(rt: &impl Print) -> io::Result<()> {
    case(rt, b"ride in order: 4C000F 4300000008 4600010001 45", 64)?;
    named(rt, b"rides in the middle", &RIDES, 64)?;
    case(
        rt,
        b"rides of two lines in turn: 4C000F 4C0014 4300010008 4301030011 4600020001 4601000001 45",
        64,
    )?;
    case(
        rt,
        b"operands like commands: 4C0043 4300004546 4600014645 45",
        64,
    )
}

// Other networks, and other bytes: P1 with its lines exchanged, which is rated alike, and with its offsets exchanged; offsets that leave the
// same remainder by the period.
fn other_networks(rt: &impl Print) -> io::Result<()> {
    case(
        rt,
        b"P1, lines exchanged: 4C0014 4C000F 4300000011 4301000008 45",
        64,
    )?;
    case(
        rt,
        b"P1, offsets exchanged: 4C000F 4C0014 4300000011 4301000008 45",
        64,
    )?;
    case(rt, b"period 15, offset 8: 4C000F 4300000008 45", 64)?;
    case(rt, b"period 15, offset 23: 4C000F 4300000017 45", 64)
}

// A line's two calls at a stop stand by offset as stated, equal ones both; the ride counts from the call before it in the file.
fn loops(rt: &impl Print) -> io::Result<()> {
    case(
        rt,
        b"twice, the later first: 4C000A 4300000005 4300000002 45",
        64,
    )?;
    case(rt, b"twice by a ride: 4C000A 4300000005 4600000002 45", 64)?;
    case(rt, b"twice the same: 4C000A 4300000005 4300000005 45", 64)?;
    case(
        rt,
        b"twice, by remainder the other way: 4C000A 430000000C 4300000005 45",
        64,
    )
}

// The archive form of an archive form is itself.
fn twice(rt: &impl Print) -> io::Result<()> {
    again(rt, b"P9 again", &P9)?;
    again(rt, b"lines at stops in turn, again", &IN_TURN)?;
    again(rt, b"rides in the middle, again", &RIDES)
}
