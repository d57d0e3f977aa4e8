// The largest file of edition 1: 16 lines, and 256 calls that stand by stop and then line. Its archive form has 3×16 + 5×256 + 1 = 1,329 bytes.
ghost use Rattle.std.specs.Prelude.{◌≤◌, length};

use crate::shown::{FILL, show_answer, show_commands, show_rest, written};
use cases_typed::large::large_file;
use cases_typed::put_hex;
use cases_typed::show::show_name;
use std::io;

// Line l's call at stop s has offset l×s, which fits a byte, and comes to stand at place 48 + 80l + 5s. So from place 118 on stand line 0's
// calls at stops 14 and 15 and line 1's at 0 and 1. The file itself, by stop and then line, has the same two sums, lines and stops being
// equally many: the two orders differ by what stands there.
//
// The sum of the bytes. The lines have 16×(76 + 60) = 2,176; the calls 256×67 = 17,152, their lines and their stops 16×120 = 1,920 each,
// their offsets 120×120 = 14,400; the end has 69. Together 37,637.
//
// The sum of the running sums counts the byte at place p 1,329 - p times: it is 1,329×37,637 = 50,019,573 less each byte times its place.
// That is 50,880 for the lines; for the calls, whose places add up to 175,488, 67 times that or 11,757,696, and 1,753,280 for their lines,
// 1,347,200 for their stops, 13,396,800 for their offsets; 69×1,328 = 91,632 for the end. Together 28,397,488, which leaves 21,622,085.
pub fn all(rt: &impl Print) -> io::Result<()> {
    largest(rt, b"largest, row of 1329", 1329)?;
    largest(rt, b"largest, row of 1328", 1328)?;
    largest(rt, b"largest, row of 0", 0)?;
    largest(rt, b"largest, row of 2048", 2048)?;
    largest_again(rt, b"largest, again")
}

// A case: the largest file, and a row of so many places.
fn largest(rt: &impl Print, name: &[u8], places: usize) -> io::Result<()>
    requires { places ≤ 2048 }
{
    let mut file = large_file(16, 16, 60, true);
    let end = put_hex(b"45", &mut file, 1328);
    show(rt, name, &file[..end], places)
}

// A case whose file is what the archive call wrote for the largest file.
fn largest_again(rt: &impl Print, name: &[u8]) -> io::Result<()> {
    let mut file = large_file(16, 16, 60, true);
    let end = put_hex(b"45", &mut file, 1328);
    let mut form = [FILL; 2048];
    let _ = network::archive::archive(&file[..end], &mut form);
    let length = written(&form);
    show(rt, name, &form[..length], 2048)
}

// The answer for a file and a row that is the first places of 2,048, on a line of its own.
fn show(rt: &impl Print, name: &[u8], file: &[u8], places: usize) -> io::Result<()>
    requires { places ≤ 2048 }
{
    let mut row = [FILL; 2048];
    show_name(rt, name)?;
    let answer = network::archive::archive(file, &mut row[..places]);
    show_answer(rt, answer)?;
    show_row(rt, &row)
}

// A row: the sums of the bytes that are written, some of its commands, and how many bytes stand behind as before the call.
fn show_row(rt: &impl Print, row: &[u8]) -> io::Result<()>
    requires { (138 ≤ length row.now) × (length row.now ≤ 2048) }
{
    let end = written(row);
    show_sums(rt, &row[..end])?;
    print!(rt; "; from 118")?;
    show_commands(rt, &row[118..138])?;
    show_rest(rt, row, end)
}

// The sum of the bytes, by which a change of one shows, and that of the running sums, by which an exchange of two does.
fn show_sums(rt: &impl Print, bytes: &[u8]) -> io::Result<()>
    requires { length bytes.now ≤ 2048 }
{
    let mut sum: u64 = 0;
    let mut sums: u64 = 0;
    for byte in bytes {
        sum += *byte as u64;
        sums += sum;
    }
    print!(rt; "; sums {sum} {sums}")
}
