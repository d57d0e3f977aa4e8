// Document 02, A.6: the edition in the archive form. Edition 1 is stated by no byte; edition 2 by two, which the row has to have room for.
use crate::cases::{again, case, named};
use std::io;

const EDITION_2: [u8; 25] = *b"5602 4C000F 4300000008 45";

pub fn all(rt: &impl Print) -> io::Result<()> {
    second(rt)?;
    first(rt)?;
    refused(rt)
}

// Eleven bytes, which are their own archive form. Its calls are put in order as in edition 1.
fn second(rt: &impl Print) -> io::Result<()> {
    named(rt, b"edition 2, row of 11", &EDITION_2, 11)?;
    named(rt, b"edition 2, row of 10", &EDITION_2, 10)?;
    named(rt, b"edition 2, row of 64", &EDITION_2, 64)?;
    named(rt, b"edition 2, row of 0", &EDITION_2, 0)?;
    again(rt, b"edition 2, again", &EDITION_2)?;
    case(
        rt,
        b"edition 2, line 1 behind line 0's call: 5602 4C000F 4300000008 4C0014 4301000011 45",
        64,
    )?;
    case(
        rt,
        b"edition 2, stops out of order: 5602 4C000F 4C0014 4301000011 4300050009 4300010000 45",
        64,
    )
}

// The same network as without 56, and the same bytes.
fn first(rt: &impl Print) -> io::Result<()> {
    case(rt, b"edition 1, row of 9: 5601 4C000F 4300000008 45", 9)?;
    case(rt, b"edition 1, row of 8: 5601 4C000F 4300000008 45", 8)?;
    case(
        rt,
        b"edition 1, a ride: 5601 4C000F 4300000008 4600010003 45",
        64,
    )
}

// The file's own grounds come before 18, and nothing is written.
fn refused(rt: &impl Print) -> io::Result<()> {
    case(
        rt,
        b"19, row of 64: 5602 4C000F 4300000008 4600010003 45",
        64,
    )?;
    case(rt, b"20, row of 0: 4C000F 5602", 0)?;
    case(rt, b"21, row of 64: 5603 4C000F 4300000008 45", 64)
}
