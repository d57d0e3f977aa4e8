// Each ground met first: nothing before it in the file is refused.
use crate::cases::{case, full_case, large_case};
use std::io;

pub fn all(rt: &impl Print) -> io::Result<()> {
    no_byte(rt)?;
    unknown_command(rt)?;
    cut_off(rt)?;
    seventeenth_line(rt)?;
    period_out_of_range(rt)?;
    cycle_too_long(rt)?;
    line_not_stated(rt)?;
    stop_above_63(rt)?;
    calls_there(rt)?;
    call_257(rt)?;
    no_earlier_call(rt)?;
    offset_above_65535(rt)?;
    silent_line(rt)?;
    byte_behind(rt)
}

// Ground 1.
fn no_byte(rt: &impl Print) -> io::Result<()> {
    case(rt, b"1 behind a line: 4C000F")?;
    case(rt, b"1 behind a ride: 4C000F 4300000008 4600010001")
}

// Ground 2: neighbours of 43, 45, 46 and 4C, those of 56 being in editions.rt, and bytes far off.
fn unknown_command(rt: &impl Print) -> io::Result<()> {
    case(rt, b"2 byte 00: 00")?;
    case(rt, b"2 byte 42: 42")?;
    case(rt, b"2 byte 44: 4C000F 4300000008 44")?;
    case(rt, b"2 byte 47: 47")?;
    case(rt, b"2 byte 4B: 4B")?;
    case(rt, b"2 byte 4D: 4D000F 4300000008 45")?;
    case(rt, b"2 byte C5: 4C000F 4300000008 C5")?;
    case(rt, b"2 byte FF: 4C000F FF")
}

// Ground 3.
fn cut_off(rt: &impl Print) -> io::Result<()> {
    case(rt, b"3 line, no operand: 4C")?;
    case(rt, b"3 line, one byte: 4C00")?;
    case(rt, b"3 call, no operand: 4C000F 43")?;
    case(rt, b"3 call, three bytes: 4C000F 43000000")?;
    case(rt, b"3 ride, no operand: 4C000F 4300000008 46")?;
    case(rt, b"3 ride, three bytes: 4C000F 4300000008 46000100")
}

// Ground 4.
fn seventeenth_line(rt: &impl Print) -> io::Result<()> {
    large_case(rt, b"4 behind lines: 4C003C", 16, 16, 0)?;
    large_case(rt, b"4 behind lines and calls: 4C003C", 16, 16, 16)
}

// Ground 5. 1,441 is a multiple of 11, so that their cycle is not too long.
fn period_out_of_range(rt: &impl Print) -> io::Result<()> {
    case(rt, b"5 period 0: 4C0000")?;
    case(rt, b"5 period 1441 behind 11: 4C000B 4C05A1")?;
    case(rt, b"5 period 65535: 4CFFFF")
}

// Ground 6. 17 and 593 make 10,081; 7, 11, 13 and 17 make 17,017, though no three of them pass 10,080.
fn cycle_too_long(rt: &impl Print) -> io::Result<()> {
    case(rt, b"6 periods 17 and 593: 4C0011 4C0251")?;
    case(
        rt,
        b"6 periods 7, 11, 13 and 17: 4C0007 4C000B 4C000D 4C0011",
    )
}

// Ground 7. A line that is stated only behind its call is not yet stated.
fn line_not_stated(rt: &impl Print) -> io::Result<()> {
    case(rt, b"7 no line: 4300000000")?;
    case(rt, b"7 line 1 of one: 4C000F 4301000000")?;
    case(
        rt,
        b"7 line stated behind: 4C000F 4301000000 4C000F 4300000000 45",
    )?;
    case(rt, b"7 line 255: 4C000F 43FF000000")?;
    large_case(rt, b"7 line 16 of sixteen: 4310000000", 16, 16, 16)?;
    case(rt, b"7 ride of line 1: 4C000F 4300000008 4601010000")
}

// Ground 8.
fn stop_above_63(rt: &impl Print) -> io::Result<()> {
    case(rt, b"8 stop 64: 4C000F 4300400000")?;
    case(rt, b"8 stop 255: 4C000F 4300FF0000")?;
    case(rt, b"8 ride to stop 64: 4C000F 4300000008 4600400000")
}

// Ground 9: a line's third call at a stop, whatever the offsets and whichever command states it.
fn calls_there(rt: &impl Print) -> io::Result<()> {
    case(
        rt,
        b"9 same offset: 4C000F 4300000008 4300000008 4300000008",
    )?;
    case(
        rt,
        b"9 another offset: 4C000F 4300000008 4300010009 4300000007 4300000006",
    )?;
    case(
        rt,
        b"9 ride to the same stop: 4C000F 4300000008 4600000001 4600000001",
    )
}

// Ground 10. None of the 16 lines calls at stop 16.
fn call_257(rt: &impl Print) -> io::Result<()> {
    full_case(rt, b"10 call: 4300100000 45")?;
    full_case(rt, b"10 ride: 4600100000 45")
}

// Ground 11.
fn no_earlier_call(rt: &impl Print) -> io::Result<()> {
    case(rt, b"11 no call at all: 4C000F 4600000000")?;
    case(
        rt,
        b"11 call of another line: 4C000F 4C0014 4300000000 4601000000",
    )
}

// Ground 12.
fn offset_above_65535(rt: &impl Print) -> io::Result<()> {
    case(rt, b"12 offset 65535, ride 1: 4C000F 430000FFFF 4600010001")?;
    case(rt, b"12 offset 1, ride 65535: 4C000F 4300000001 460001FFFF")
}

// Ground 13. In the last file 15 of the 16 lines make the 256 calls.
fn silent_line(rt: &impl Print) -> io::Result<()> {
    case(rt, b"13 no line: 45")?;
    case(rt, b"13 only line: 4C000F 45")?;
    case(rt, b"13 first line: 4C000F 4C0014 4301000008 45")?;
    case(rt, b"13 last line: 4C000F 4C0014 4300000008 45")?;
    case(rt, b"13 line behind the calls: 4C000F 4300000008 4C0014 45")?;
    large_case(rt, b"13 sixteenth line: 45", 16, 15, 256)
}

// Ground 14.
fn byte_behind(rt: &impl Print) -> io::Result<()> {
    case(rt, b"14 a second 45: 4C000F 4300000008 45 45")?;
    case(rt, b"14 an unknown byte: 4C000F 4300000008 45 FF")
}
