// Cases as lines of a text: their parts and their numbers.
ghost use Rattle.std.specs.Prelude.{◌<◌, ◌≤◌, length};

use crate::large::large_file;
use crate::{cut, digit, put_hex};
use std::io;

// Whether a line is a remark, which begins with `#`, or empty.
pub fn is_remark(text: &[u8]) -> bool {
    matches!(text, [] | [b'#', ..])
}

// Runs each line of a text as a case, but for empty ones and remarks.
pub fn each_case<F: FnMut(&[u8]) -> io::Result<()>>(text: &[u8], case: F) -> io::Result<()>
    requires { F.IsAlwaysCallable case }
{
    text.split(|glyph| *glyph == b'\n')
        .filter(|line| !is_remark(line))
        .try_for_each(case)
}

// A number that a text writes in decimal.
pub trait Written: Copy {
    // The number; 0 where it has no 32 bits.
    fn read(text: &[u8]) -> Self;
}

// A start, with a `-` before a negative one.
impl Written for i32 {
    fn read(text: &[u8]) -> i32 {
        let number = match text.strip_prefix(b"-") {
            Some(size) => -(number_of(size) as i64),
            None => number_of(text) as i64,
        };
        i32::try_from(number).unwrap_or(0)
    }
}

// A size.
impl Written for u32 {
    fn read(text: &[u8]) -> u32 {
        u32::try_from(number_of(text)).unwrap_or(0)
    }
}

// A number of up to 12 digits; by hand, since a glyph that is no digit counts as 0, where `parse` refuses.
fn number_of(text: &[u8]) -> u64
    ensures { result < 10000000000006 }
{
    let mut number: u64 = 0;
    for glyph in text {
        number = number % 1000000000000 * 10 + u64::from(digit(*glyph));
    }
    number
}

// The numbers that a text has, with blanks between them, as many as there is room for. Answers how many.
// A loop by hand: in a generic function a `for` over `split` gets no proof (its iterator's type isn't admitted).
pub fn put_numbers<N: Written>(text: &[u8], row: &mut [N]) -> usize
    ensures { result ≤ length row.new }
{
    let mut count = 0;
    let mut rest = text;
    while !rest.is_empty() && count < row.len() {
        let (number, behind) = cut(rest, b' ');
        if !number.is_empty() {
            row[count] = N::read(number);
            count += 1;
        }
        rest = behind;
    }
    count
}

// The file that a text writes: its bytes in hexadecimal; or behind a `=` how many lines it has, how many of them call, which period they have and how
// many calls, as `large_file` has them, and behind a comma the bytes that follow. Answers how many bytes it has.
pub fn put_file(text: &[u8], file: &mut [u8; 2048]) -> usize
    ensures { result ≤ length file.new }
{
    if !text.contains(&b'=') {
        return put_hex(text, file, 0);
    }
    let (_, large) = cut(text, b'=');
    let (numbers, behind) = cut(large, b',');
    let mut sizes = [0u32; 8];
    put_numbers(numbers, &mut sizes);
    put_large(file, sizes[0], sizes[1], sizes[2], sizes[3], behind)
}

// A case's name, how many bytes the file behind it has, and what stands behind the file.
pub fn put_named<'a>(text: &'a [u8], file: &mut [u8; 2048]) -> (&'a [u8], usize, &'a [u8])
    ensures { result.1 ≤ length file.new }
{
    let (name, behind) = cut(text, b':');
    let (bytes, rest) = cut(behind, b'|');
    (name, put_file(bytes, file), rest)
}

fn put_large(
    file: &mut [u8; 2048],
    lines: u32,
    callers: u32,
    period: u32,
    calls: u32,
    text: &[u8],
) -> usize
    ensures { result ≤ length file.new }
{
    if lines <= 16 && 0 < callers && period <= 1440 && calls <= 256 {
        let count = lines as usize;
        *file = large_file(count, callers as usize, period as u16, false);
        put_hex(text, file, 3 * count + 5 * calls as usize)
    } else {
        0
    }
}
