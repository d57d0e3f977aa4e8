// One case of the board call: a line says what it answers, and what the rows hold afterwards.
ghost use Rattle.std.specs.Prelude.{◌≤◌};

use crate::shown::{NO_LINE, NO_TIME, PLACES, show_answer, show_rows};
use cases_typed::cut;
use cases_typed::lines::{put_named, put_numbers};
use cases_typed::show::show_name;
use std::io;

// A case: its name, and its file; behind strokes the starts of its sheet, the first minute, and what is asked.
pub fn case(rt: &impl Print, text: &[u8]) -> io::Result<()> {
    let mut file = [0u8; 2048];
    let (name, end, rest) = put_named(text, &mut file);
    on_sheet(rt, name, &file[..end], rest)
}

fn on_sheet(rt: &impl Print, name: &[u8], file: &[u8], text: &[u8]) -> io::Result<()> {
    let (starts, text) = cut(text, b'|');
    let mut sheet = [0i32; 32];
    let count = put_numbers(starts, &mut sheet);
    let (from, text) = cut(text, b'|');
    let mut minute = [0i32; 32];
    put_numbers(from, &mut minute);
    ask(rt, name, file, &sheet[..count], minute[0], text)
}

// What is asked: the stop, how many minutes, and how many places the rows of times and of lines have, 32 where nothing is said.
fn ask(
    rt: &impl Print,
    name: &[u8],
    file: &[u8],
    sheet: &[i32],
    from: i32,
    text: &[u8],
) -> io::Result<()> {
    let mut sizes = [32u32; 8];
    put_numbers(text, &mut sizes);
    let time_places = places(sizes[2]);
    let line_places = places(sizes[3]);
    show(
        rt,
        name,
        file,
        sheet,
        sizes[0],
        from,
        sizes[1],
        time_places,
        line_places,
    )
}

fn places(size: u32) -> usize
    ensures { result ≤ 32 }
{
    PLACES.min(size as usize)
}

// The answer for a file and rows that are the first places of 32, on a line of its own. All 32 are shown, so that what is written behind a row
// shows too.
fn show(
    rt: &impl Print,
    name: &[u8],
    file: &[u8],
    sheet: &[i32],
    stop: u32,
    from: i32,
    minutes: u32,
    time_places: usize,
    line_places: usize,
) -> io::Result<()>
    requires { (time_places ≤ 32) × (line_places ≤ 32) }
{
    let mut times = [NO_TIME; PLACES];
    let mut lines = [NO_LINE; PLACES];
    show_name(rt, name)?;
    let answer = network::board::board(
        file,
        sheet,
        stop,
        from,
        minutes,
        &mut times[..time_places],
        &mut lines[..line_places],
    );
    show_answer(rt, answer)?;
    show_rows(rt, &times, &lines)
}
