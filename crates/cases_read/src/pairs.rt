// Two grounds apply to one command, and the lower number is answered.
use crate::cases::{case, full_case, large_case};
use std::io;

pub fn all(rt: &impl Print) -> io::Result<()> {
    cut_lines(rt)?;
    lines(rt)?;
    cut_calls(rt)?;
    calls(rt)?;
    cut_rides(rt)?;
    rides_to_a_wrong_place(rt)?;
    rides_too_many(rt)?;
    rides_from_nowhere(rt)?;
    ends(rt)
}

// 4C, cut off. A first byte FF is out of range by any second byte. 1,427 is a prime and makes a cycle of 9,989 with 7, which no
// period from 256 to 511 divides.
fn cut_lines(rt: &impl Print) -> io::Result<()> {
    large_case(rt, b"line 3 and 4: 4C00", 16, 16, 0)?;
    case(rt, b"line 3 and 5: 4CFF")?;
    case(rt, b"line 3 and 6: 4C0593 4C0007 4C01")
}

// 4C. The 16 lines have period 60, which makes 85,620 with 1,427; 7 and 1,441 make 10,087.
fn lines(rt: &impl Print) -> io::Result<()> {
    large_case(rt, b"line 4 and 5, period 0: 4C0000", 16, 16, 0)?;
    large_case(rt, b"line 4 and 5, period 1441: 4C05A1", 16, 16, 0)?;
    large_case(rt, b"line 4 and 6: 4C0593", 16, 16, 0)?;
    case(rt, b"line 5 and 6: 4C0007 4C05A1")
}

// 43, its last byte cut off.
fn cut_calls(rt: &impl Print) -> io::Result<()> {
    case(rt, b"call 3 and 7: 4C000F 43010000")?;
    case(rt, b"call 3 and 8: 4C000F 43004000")?;
    case(rt, b"call 3 and 9: 4C000F 4300000008 4300000008 43000000")?;
    full_case(rt, b"call 3 and 10: 43001000")
}

// 43. 7 and 9 can't both apply: a line that calls is stated before. Nor can 8 and 9: no line calls above stop 63.
fn calls(rt: &impl Print) -> io::Result<()> {
    case(rt, b"call 7 and 8: 4C000F 4301400000")?;
    full_case(rt, b"call 7 and 10: 4310000000")?;
    full_case(rt, b"call 8 and 10: 4300400000")?;
    large_case(rt, b"call 9 and 10: 4300000000 4300000000", 16, 16, 255)?;
    full_case(rt, b"call 10, the line's second there: 4300000000")
}

// 46, its last byte cut off. Behind offset 65,535 a ride whose first byte is FF is too long by any second byte.
fn cut_rides(rt: &impl Print) -> io::Result<()> {
    case(rt, b"ride 3 and 7: 4C000F 46010000")?;
    case(rt, b"ride 3 and 8: 4C000F 4300000008 46004000")?;
    case(rt, b"ride 3 and 9: 4C000F 4300000008 4300000008 46000000")?;
    full_case(rt, b"ride 3 and 10: 46001000")?;
    case(rt, b"ride 3 and 11: 4C000F 46000000")?;
    case(rt, b"ride 3 and 12: 4C000F 430000FFFF 460001FF")
}

// 46. 7 and 9 can't both apply, nor 8 and 9, as for 43; nor 9 and 11, since a line that calls there has a call.
fn rides_to_a_wrong_place(rt: &impl Print) -> io::Result<()> {
    case(rt, b"ride 7 and 8: 4C000F 4300000008 4601400000")?;
    case(rt, b"ride 7 and 11: 4C000F 4601000000")?;
    case(rt, b"ride 8 and 11: 4C000F 4600400000")?;
    case(rt, b"ride 8 and 12: 4C000F 430000FFFF 4600400001")?;
    case(
        rt,
        b"ride 9 and 12: 4C000F 4300000000 430000FFFF 4600000001",
    )
}

// Line 15 has no call where 15 lines make the 256; else each line's latest call is at offset 1.
fn rides_too_many(rt: &impl Print) -> io::Result<()> {
    full_case(rt, b"ride 7 and 10: 4610000000")?;
    full_case(rt, b"ride 8 and 10: 4600400000")?;
    large_case(rt, b"ride 9 and 10: 4600000000 4600000000", 16, 16, 255)?;
    full_case(rt, b"ride 10, the line's second there: 4600000000")?;
    large_case(rt, b"ride 10 and 11: 460F000000", 16, 15, 256)?;
    full_case(rt, b"ride 10 and 12: 460010FFFF")
}

// Without an earlier call there is no offset, so that 12 stands beside neither 7 nor 11, however long the ride.
fn rides_from_nowhere(rt: &impl Print) -> io::Result<()> {
    case(rt, b"ride 11, no call: 4C000F 460000FFFF")?;
    case(
        rt,
        b"ride 11, another line at 65535: 4C000F 4C0014 430000FFFF 460100FFFF",
    )
}

// 45.
fn ends(rt: &impl Print) -> io::Result<()> {
    case(rt, b"end 13 and 14, no line: 45 00")?;
    case(rt, b"end 13 and 14, line silent: 4C000F 45 00")
}
