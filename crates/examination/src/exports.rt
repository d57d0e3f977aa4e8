// The exports: the calls for programs in other languages, as docs/ABI.md sets them down. The static library `examination_c` exports each under
// its name here, with the same clauses.
ghost use Rattle.std.specs.Prelude.{◌≡◌, ℕ, ◌<◌, length};
ghost use Rattle.network.specs.Archive as form;
ghost use Rattle.network.specs.Board.{window};
ghost use Rattle.network.specs.ClassCall as call;
ghost use Rattle.network.specs.Numbers.{number_of};
ghost use Rattle.network.specs.Rate.{rate_answer, rate_outcome};
ghost use Rattle.network.specs.Reading.{read_file, read_outcome, refusal};
ghost use Rattle.network.specs.Valid.{IsBytes};
ghost use Rattle.search.specs.Search.{search_outcome, start_row_after};
ghost use Rattle.search.specs.Wanted.{wanted_outcome, wanted_row_after};
ghost use Rattle.examination.specs.Bytes as bytes;
ghost use Rattle.examination.specs.Exports as export;
ghost use Rattle.examination.specs.Sheets as sheets;

use crate::better::choose;
use crate::by_key::by_key;
use crate::bytes::sheet_of;
use crate::marking::mark;
use crate::{Choice, MarkAnswer};
use network::archive::archive;
use network::board::board;
use network::classes::{classes, weighted};
use network::gap_row::gaps;
use network::grounds::Refusal;
use network::rate::rate;
use network::reader::read;
use network::{Network, Rating};
use search::entry::search;
use search::wanted::wanted;
use search::{SearchAnswer, WantedAnswer};

// More than any place: a refusal is its number times this, plus its place.
const PLACE_LIMIT: u32 = 65536;

// A refusal as one number.
fn refusal_code(refusal: Refusal) -> u32
    requires { refusal.place < export.place_limit }
    ensures { result ≡ export.refusal_code (number_of refusal.reason) refusal.place }
{
    u32::from(refusal.reason.number()) * PLACE_LIMIT + refusal.place as u32
}

// A rating's two numbers into the answer row, or a refusal; and what the export returns.
fn put_rating(told: Result<Rating, Refusal>, answer: &mut [u32; 2]) -> u32
    requires { (number place : ℕ) → rate_answer told ≡ refusal number place → place < export.place_limit }
    ensures returned { result ≡ export.status (rate_answer told) }
    ensures row { answer.new ≡ export.row_after (rate_answer told) answer.old }
{
    match told {
        Err(refusal) => refusal_code(refusal),
        Ok(rating) => {
            *answer = [rating.least, rating.sum];
            0
        }
    }
}

// How many, into the answer row, or a refusal; and what the export returns.
fn put_count(told: Result<u32, Refusal>, answer: &mut [u32; 1]) -> u32
    requires { (number place : ℕ) → call.class_answer told ≡ refusal number place → place < export.place_limit }
    ensures returned { result ≡ export.status (call.class_answer told) }
    ensures row { answer.new ≡ export.row_after (call.class_answer told) answer.old }
{
    match told {
        Err(refusal) => refusal_code(refusal),
        Ok(count) => {
            *answer = [count];
            0
        }
    }
}

// Read.
pub fn examination_read(file: &[u8], answer: &mut [u32; 4]) -> u32
    ensures returned { result ≡ export.status (read_outcome (read_file file.now)) }
    ensures row { answer.new ≡ export.row_after (read_outcome (read_file file.now)) answer.old }
    ensures bytes { IsBytes file.now }
{
    match read(file) {
        Err(refusal) => refusal_code(refusal),
        Ok(told) => {
            *answer = [told.lines, told.stops, told.calls, told.cycle];
            0
        }
    }
}

// Rate, the sheet as bytes.
pub fn examination_rate(file: &[u8], sheet: &[u8], answer: &mut [u32; 2]) -> u32
    ensures returned { result ≡ export.status (bytes.by_bytes rate_outcome refusal (read_file file.now) sheet.now) }
    ensures row { answer.new ≡ export.row_after (bytes.by_bytes rate_outcome refusal (read_file file.now) sheet.now) answer.old }
    ensures bytes { IsBytes file.now }
    ensures sheet { IsBytes sheet.now }
{
    let taken = sheet_of(sheet);
    put_rating(rate(file, taken.starts()), answer)
}

// The weighted rating, the sheet as bytes.
pub fn examination_weighted(file: &[u8], sheet: &[u8], answer: &mut [u32; 2]) -> u32
    ensures returned { result ≡ export.status (bytes.by_bytes call.weighted_outcome refusal (read_file file.now) sheet.now) }
    ensures row { answer.new ≡ export.row_after (bytes.by_bytes call.weighted_outcome refusal (read_file file.now) sheet.now) answer.old }
    ensures bytes { IsBytes file.now }
    ensures sheet { IsBytes sheet.now }
{
    let taken = sheet_of(sheet);
    put_rating(weighted(file, taken.starts()), answer)
}

// The gap of each stop, the sheet as bytes.
pub fn examination_gaps(
    file: &[u8],
    sheet: &[u8],
    gap_row: &mut [u16; Network::STOPS],
    answer: &mut [u32; 2],
) -> u32
    ensures returned { result ≡ export.status (bytes.by_bytes rate_outcome refusal (read_file file.now) sheet.now) }
    ensures row { answer.new ≡ export.row_after (bytes.by_bytes rate_outcome refusal (read_file file.now) sheet.now) answer.old }
    ensures gaps { gap_row.new ≡ bytes.gap_row_bytes gap_row.old (read_file file.now) sheet.now }
    ensures bytes { IsBytes file.now }
    ensures sheet { IsBytes sheet.now }
{
    let taken = sheet_of(sheet);
    put_rating(gaps(file, taken.starts(), gap_row), answer)
}

// The class call.
pub fn examination_classes(
    file: &[u8],
    class_row: &mut [u8],
    weight_row: &mut [u16],
    answer: &mut [u32; 1],
) -> u32
    ensures returned { result ≡ export.status (call.class_outcome (read_file file.now) (length class_row.old) (length weight_row.old)) }
    ensures row { answer.new ≡ export.row_after (call.class_outcome (read_file file.now) (length class_row.old) (length weight_row.old)) answer.old }
    ensures classes { class_row.new ≡ call.class_row_after (read_file file.now) class_row.old weight_row.old }
    ensures weights { weight_row.new ≡ call.weight_row_after (read_file file.now) class_row.old weight_row.old }
    ensures bytes { IsBytes file.now }
{
    put_count(classes(file, class_row, weight_row), answer)
}

// The archive call: returns the length of the archive form.
pub fn examination_archive(file: &[u8], row: &mut [u8]) -> u32
    ensures returned { result ≡ export.archive_status (form.archive_outcome (read_file file.now) (length row.old)) }
    ensures row { row.new ≡ form.archive_row_after (read_file file.now) row.old }
    ensures bytes { IsBytes file.now }
{
    match archive(file, row) {
        Err(refusal) => refusal_code(refusal),
        Ok(bytes) => bytes,
    }
}

// The board of a stop, the sheet as bytes.
pub fn examination_board(
    file: &[u8],
    sheet: &[u8],
    stop: u32,
    from: i32,
    minutes: u32,
    time_row: &mut [i64],
    line_row: &mut [u8],
    answer: &mut [u32; 1],
) -> u32
    ensures returned { result ≡ export.status (bytes.board_bytes (window stop from minutes) (length time_row.old) (length line_row.old) (read_file file.now) sheet.now) }
    ensures row { answer.new ≡ export.row_after (bytes.board_bytes (window stop from minutes) (length time_row.old) (length line_row.old) (read_file file.now) sheet.now) answer.old }
    ensures times { time_row.new ≡ bytes.time_row_bytes (window stop from minutes) time_row.old line_row.old (read_file file.now) sheet.now }
    ensures lines { line_row.new ≡ bytes.line_row_bytes (window stop from minutes) time_row.old line_row.old (read_file file.now) sheet.now }
    ensures bytes { IsBytes file.now }
    ensures sheet { IsBytes sheet.now }
{
    let taken = sheet_of(sheet);
    let told = board(
        file,
        taken.starts(),
        stop,
        from,
        minutes,
        time_row,
        line_row,
    );
    put_count(told, answer)
}

// The search.
pub fn examination_search(
    file: &[u8],
    start_row: &mut [i32],
    budget: u32,
    answer: &mut [u32; 3],
) -> u32
    ensures returned { result ≡ export.search_status (search_outcome (read_file file.now) (length start_row.old) budget) }
    ensures row { answer.new ≡ export.search_row (search_outcome (read_file file.now) (length start_row.old) budget) answer.old }
    ensures starts { start_row.new ≡ start_row_after (read_file file.now) budget start_row.old }
    ensures bytes { IsBytes file.now }
{
    match search(file, start_row, budget) {
        Err(refusal) => refusal_code(refusal),
        Ok(SearchAnswer::Finished { best, tries }) => {
            *answer = [best.least, best.sum, tries];
            0
        }
        Ok(SearchAnswer::Stopped { best, tries }) => {
            *answer = [best.least, best.sum, tries];
            1
        }
        Ok(SearchAnswer::StoppedWithNone { tries }) => {
            *answer = [0, 0, tries];
            2
        }
    }
}

// From a wanted gap to a timetable.
pub fn examination_wanted(
    file: &[u8],
    start_row: &mut [i32],
    gap: u16,
    budget: u32,
    answer: &mut [u32; 1],
) -> u32
    ensures returned { result ≡ export.wanted_status (wanted_outcome (read_file file.now) (length start_row.old) gap budget) }
    ensures row { answer.new ≡ export.wanted_row (wanted_outcome (read_file file.now) (length start_row.old) gap budget) answer.old }
    ensures starts { start_row.new ≡ wanted_row_after (read_file file.now) gap budget start_row.old }
    ensures bytes { IsBytes file.now }
{
    match wanted(file, start_row, gap, budget) {
        Err(refusal) => refusal_code(refusal),
        Ok(WantedAnswer::Found { tries }) => {
            *answer = [tries];
            0
        }
        Ok(WantedAnswer::None { tries }) => {
            *answer = [tries];
            1
        }
        Ok(WantedAnswer::Stopped { tries }) => {
            *answer = [tries];
            2
        }
    }
}

// Better-of-two, both sheets as bytes: 1 the first, 2 the second, 0 neither.
pub fn examination_better(file: &[u8], first: &[u8], second: &[u8]) -> u32
    ensures returned { result ≡ export.better_status (bytes.better_bytes (read_file file.now) first.now second.now) }
    ensures bytes { IsBytes file.now }
    ensures first { IsBytes first.now }
    ensures second { IsBytes second.now }
{
    let one = sheet_of(first);
    let other = sheet_of(second);
    match choose(file, one.starts(), other.starts()) {
        Choice::First => 1,
        Choice::Second => 2,
        Choice::Neither => 0,
    }
}

// Mark on a sheet's bytes.
fn mark_bytes(file: &[u8], sheet: &[u8], budget: u32) -> Result<MarkAnswer, Refusal>
    ensures answer { sheets.mark_answer result ≡ bytes.mark_bytes budget (read_file file.now) sheet.now }
    ensures bytes { IsBytes file.now }
{
    let taken = sheet_of(sheet);
    mark(file, taken.starts(), budget)
}

// A mark's six numbers into the answer row, or a refusal; and what the export returns.
fn put_mark(told: Result<MarkAnswer, Refusal>, answer: &mut [u32; 6]) -> u32
    requires { (number place : ℕ) → sheets.mark_answer told ≡ sheets.refusal number place → place < export.place_limit }
    ensures returned { result ≡ export.mark_status (sheets.mark_answer told) }
    ensures row { answer.new ≡ export.mark_row (sheets.mark_answer told) answer.old }
{
    match told {
        Err(refusal) => refusal_code(refusal),
        Ok(MarkAnswer::Undecided { sheet, tries }) => {
            *answer = [sheet.least, sheet.sum, 0, 0, 0, tries];
            1
        }
        Ok(
            MarkAnswer::Decided {
                sheet,
                best,
                equal,
                tries,
                ..
            },
        ) => {
            *answer = [
                sheet.least,
                sheet.sum,
                best.least,
                best.sum,
                u32::from(equal),
                tries,
            ];
            0
        }
    }
}

// A mark out of a hundred and its remainder into a row of their own; a refusal leaves the row.
fn put_hundred(told: Result<MarkAnswer, Refusal>, hundred: &mut [u32; 2])
    ensures { hundred.new ≡ export.hundred_row (sheets.mark_answer told) hundred.old }
{
    match told {
        Err(_) => {}
        Ok(MarkAnswer::Undecided { .. }) => *hundred = [0, 0],
        Ok(MarkAnswer::Decided { hundred: told, .. }) => *hundred = [told.mark, told.remainder],
    }
}

// Mark, the sheet as bytes.
pub fn examination_mark(file: &[u8], sheet: &[u8], budget: u32, answer: &mut [u32; 6]) -> u32
    ensures returned { result ≡ export.mark_status (bytes.mark_bytes budget (read_file file.now) sheet.now) }
    ensures row { answer.new ≡ export.mark_row (bytes.mark_bytes budget (read_file file.now) sheet.now) answer.old }
    ensures bytes { IsBytes file.now }
    ensures sheet { IsBytes sheet.now }
{
    put_mark(mark_bytes(file, sheet, budget), answer)
}

// Mark out of a hundred, the sheet as bytes: what the export of mark answers, and mark and remainder in a row of their own, so that a host
// that lends six places to that one keeps them.
pub fn examination_hundred(
    file: &[u8],
    sheet: &[u8],
    budget: u32,
    answer: &mut [u32; 6],
    hundred: &mut [u32; 2],
) -> u32
    ensures returned { result ≡ export.mark_status (bytes.mark_bytes budget (read_file file.now) sheet.now) }
    ensures row { answer.new ≡ export.mark_row (bytes.mark_bytes budget (read_file file.now) sheet.now) answer.old }
    ensures hundred { hundred.new ≡ export.hundred_row (bytes.mark_bytes budget (read_file file.now) sheet.now) hundred.old }
    ensures bytes { IsBytes file.now }
    ensures sheet { IsBytes sheet.now }
{
    let told = mark_bytes(file, sheet, budget);
    put_hundred(told, hundred);
    put_mark(told, answer)
}

// Mark out of a hundred by a key, sheet and key as bytes.
pub fn examination_by_key(file: &[u8], sheet: &[u8], key: &[u8], hundred: &mut [u32; 2]) -> u32
    ensures returned { result ≡ export.status (bytes.key_bytes (read_file file.now) sheet.now key.now) }
    ensures row { hundred.new ≡ export.row_after (bytes.key_bytes (read_file file.now) sheet.now key.now) hundred.old }
    ensures bytes { IsBytes file.now }
    ensures sheet { IsBytes sheet.now }
    ensures key { IsBytes key.now }
{
    let taken = sheet_of(sheet);
    let best = sheet_of(key);
    match by_key(file, taken.starts(), best.starts()) {
        Err(refusal) => refusal_code(refusal),
        Ok(told) => {
            *hundred = [told.mark, told.remainder];
            0
        }
    }
}
