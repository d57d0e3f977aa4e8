// Long files.
use crate::cases::show;
use cases_typed::papers::ONE_LINE;
use cases_typed::put_hex;
use std::io;

pub fn all(rt: &impl Print) -> io::Result<()> {
    behind_the_end(rt)?;
    one_byte_repeated(rt)
}

// An accepted file with many bytes behind it.
fn behind_the_end(rt: &impl Print) -> io::Result<()> {
    let mut zeros = [0u8; 4096];
    put_hex(&ONE_LINE, &mut zeros, 0);
    show(rt, b"nine bytes and 4087 of 00", &zeros)?;
    let mut lines = [0x4Cu8; 4096];
    put_hex(&ONE_LINE, &mut lines, 0);
    show(rt, b"nine bytes and 4087 of 4C", &lines)
}

// 4C4C is 19,532, a period out of range; 43 and 46 name a line where none is stated.
fn one_byte_repeated(rt: &impl Print) -> io::Result<()> {
    repeated(rt, b"5000 bytes 4C", 0x4C)?;
    repeated(rt, b"5000 bytes 43", 0x43)?;
    repeated(rt, b"5000 bytes 46", 0x46)?;
    repeated(rt, b"5000 bytes 45", 0x45)?;
    repeated(rt, b"5000 bytes 00", 0x00)
}

// A file of 5,000 times the same byte.
fn repeated(rt: &impl Print, name: &[u8], byte: u8) -> io::Result<()> {
    let file = [byte; 5000];
    show(rt, name, &file)
}
