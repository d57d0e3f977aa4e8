// The gap of each stop: a line has what the gaps call answers, the first places of its row and the sum of the row, by which a change anywhere shows. Before
// each call the row has 500 in all 64 places, which sum up to 32,000.
ghost use Rattle.std.specs.Prelude.{◌≤◌};

use crate::cases::show_answer;
use cases_typed::lines::put_numbers;
use cases_typed::show::{show_name, show_number, show_numbers, sum_of};
use std::io;

// A case for the gaps call. The text says how many places of the row are shown.
pub fn show_gaps(
    rt: &impl Print,
    name: &[u8],
    file: &[u8],
    sheet: &[i32],
    text: &[u8],
) -> io::Result<()> {
    let mut sizes = [0u32; 8];
    put_numbers(text, &mut sizes);
    let shown = places(sizes[0]);
    show(rt, name, file, sheet, shown)
}

fn places(size: u32) -> usize
    ensures { result ≤ 64 }
{
    size.min(64) as usize
}

// The gaps call's answer for a file and a sheet, and the row it leaves, on a line of its own.
fn show(rt: &impl Print, name: &[u8], file: &[u8], sheet: &[i32], shown: usize) -> io::Result<()>
    requires { shown ≤ 64 }
{
    show_name(rt, name)?;
    let mut row = [500u16; 64];
    let answer = network::gap_row::gaps(file, sheet, &mut row);
    show_answer(rt, answer)?;
    print!(rt; "; row")?;
    show_numbers(rt, &row[..shown])?;
    print!(rt; "; sum")?;
    show_number(rt, sum_of(&row))?;
    println!(rt)
}
