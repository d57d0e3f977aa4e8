// The weighted rating beside the rating, on the same file and sheet.
use cases_typed::papers::{P1, P8, P9};
use cases_typed::put_hex;
use cases_typed::show::{show_name, show_rating, show_refusal};
use network::Rating;
use network::grounds::Refusal;
use std::io;

pub fn all(rt: &impl Print) -> io::Result<()> {
    paper(rt)?;
    far_starts(rt)?;
    single_lines(rt)?;
    refused(rt)
}

// A case: its name, a file in hexadecimal, and a sheet.
fn rated(rt: &impl Print, name: &[u8], text: &[u8], sheet: &[i32]) -> io::Result<()> {
    let mut file = [0u8; 128];
    let end = put_hex(text, &mut file, 0);
    show(rt, name, &file[..end], sheet)
}

// What both answer for a file and a sheet, on a line of its own.
fn show(rt: &impl Print, name: &[u8], file: &[u8], sheet: &[i32]) -> io::Result<()> {
    show_name(rt, name)?;
    print!(rt; " rate")?;
    show_answer(rt, network::rate::rate(file, sheet))?;
    print!(rt; ", weighted")?;
    show_answer(rt, network::classes::weighted(file, sheet))?;
    println!(rt)
}

fn show_answer(rt: &impl Print, answer: Result<Rating, Refusal>) -> io::Result<()> {
    match answer {
        Ok(Rating { least, sum }) => show_rating(rt, least, sum),
        Err(refusal) => show_refusal(rt, refusal.reason.number(), refusal.place),
    }
}

// The file of P1.
fn p1(rt: &impl Print, name: &[u8], first: i32, second: i32) -> io::Result<()> {
    let sheet = [first, second];
    rated(rt, name, &P1, &sheet)
}

// The file of P9: by 10 the differences leave 0 at stops 0 and 1, and 7 at stop 2.
fn p9(rt: &impl Print, name: &[u8], first: i32, second: i32) -> io::Result<()> {
    let sheet = [first, second];
    rated(rt, name, &P9, &sheet)
}

// P1 and P2; the timetable that P8 ends with; that of P9, and the one that only has the same least gap.
fn paper(rt: &impl Print) -> io::Result<()> {
    p1(rt, b"P1", 0, 0)?;
    p1(rt, b"P2", 0, -17)?;
    let sheet = [0, 30, 0];
    rated(rt, b"P8", &P8, &sheet)?;
    p9(rt, b"P9 on 0 3", 0, 3)?;
    p9(rt, b"P9 on 0 4", 0, 4)
}

// Starts at both ends of 32 bits.
fn far_starts(rt: &impl Print) -> io::Result<()> {
    p9(
        rt,
        b"P9 on the lowest and the highest",
        -2147483648,
        2147483647,
    )?;
    p9(
        rt,
        b"P9 on the highest and the lowest",
        2147483647,
        -2147483648,
    )?;
    p9(rt, b"P9 on the lowest twice", -2147483648, -2147483648)?;
    p9(rt, b"P9 on the highest and 0", 2147483647, 0)?;
    p9(rt, b"P9 on 0 and the lowest", 0, -2147483648)
}

// Stops with one line count with its period.
fn single_lines(rt: &impl Print) -> io::Result<()> {
    let pair = [0, 3];
    rated(
        rt,
        b"one line each on 0 3",
        b"4C000A 4C000A 4300000000 4301010000 4300020003 4301030004 4300040000 4301040005 45",
        &pair,
    )?;
    let lowest = [-2147483648];
    rated(
        rt,
        b"three stops of one line on the lowest",
        b"4C000F 4300050009 4300010000 4300030007 45",
        &lowest,
    )
}

// Ground 15, and the file's ground before it.
fn refused(rt: &impl Print) -> io::Result<()> {
    let one = [0];
    rated(rt, b"one start for two lines", &P1, &one)?;
    let three = [0, 0, 0];
    rated(rt, b"three starts for two lines", &P1, &three)?;
    byte_behind(rt, b"three starts and a file refused", &three)?;
    p1(rt, b"both starts at the lowest", -2147483648, -2147483648)
}

// The file of P1 and one byte behind its end.
fn byte_behind(rt: &impl Print, name: &[u8], sheet: &[i32]) -> io::Result<()> {
    let mut file = [0u8; 128];
    let last = put_hex(&P1, &mut file, 0);
    let end = put_hex(b"45", &mut file, last);
    show(rt, name, &file[..end], sheet)
}
