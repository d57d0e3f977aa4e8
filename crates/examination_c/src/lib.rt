// The exports: the calls for programs in other languages, as docs/ABI.md sets them down. Each hands on to the function of the library `examination`
// that has its name, and states that function's clauses again, word for word (.ci/exports).
#![tactic(auto)]

ghost use Rattle.std.specs.Prelude.{◌≡◌, length};
ghost use Rattle.network.specs.Archive as form;
ghost use Rattle.network.specs.Board.{window};
ghost use Rattle.network.specs.ClassCall as call;
ghost use Rattle.network.specs.Rate.{rate_outcome};
ghost use Rattle.network.specs.Reading.{read_file, read_outcome, refusal};
ghost use Rattle.network.specs.Valid.{IsBytes};
ghost use Rattle.search.specs.Search.{search_outcome, start_row_after};
ghost use Rattle.search.specs.Wanted.{wanted_outcome, wanted_row_after};
ghost use Rattle.examination.specs.Bytes as bytes;
ghost use Rattle.examination.specs.Exports as export;

use examination::exports;
use network::Network;

// Read.
#[unsafe(no_mangle)]
pub extern "C" fn examination_read(file: &[u8], answer: &mut [u32; 4]) -> u32
    ensures returned { result ≡ export.status (read_outcome (read_file file.now)) }
    ensures row { answer.new ≡ export.row_after (read_outcome (read_file file.now)) answer.old }
    ensures bytes { IsBytes file.now }
{
    exports::examination_read(file, answer)
}

// Rate, the sheet as bytes.
#[unsafe(no_mangle)]
pub extern "C" fn examination_rate(file: &[u8], sheet: &[u8], answer: &mut [u32; 2]) -> u32
    ensures returned { result ≡ export.status (bytes.by_bytes rate_outcome refusal (read_file file.now) sheet.now) }
    ensures row { answer.new ≡ export.row_after (bytes.by_bytes rate_outcome refusal (read_file file.now) sheet.now) answer.old }
    ensures bytes { IsBytes file.now }
    ensures sheet { IsBytes sheet.now }
{
    exports::examination_rate(file, sheet, answer)
}

// The weighted rating, the sheet as bytes.
#[unsafe(no_mangle)]
pub extern "C" fn examination_weighted(file: &[u8], sheet: &[u8], answer: &mut [u32; 2]) -> u32
    ensures returned { result ≡ export.status (bytes.by_bytes call.weighted_outcome refusal (read_file file.now) sheet.now) }
    ensures row { answer.new ≡ export.row_after (bytes.by_bytes call.weighted_outcome refusal (read_file file.now) sheet.now) answer.old }
    ensures bytes { IsBytes file.now }
    ensures sheet { IsBytes sheet.now }
{
    exports::examination_weighted(file, sheet, answer)
}

// The gap of each stop, the sheet as bytes.
#[unsafe(no_mangle)]
pub extern "C" fn examination_gaps(
    file: &[u8],
    sheet: &[u8],
    gap_row: &mut [u16; Network::STOPS],
    answer: &mut [u32; 2],
) -> u32
    ensures returned { result ≡ export.status (bytes.by_bytes rate_outcome refusal (read_file file.now) sheet.now) }
    ensures row { answer.new ≡ export.row_after (bytes.by_bytes rate_outcome refusal (read_file file.now) sheet.now) answer.old }
    ensures gaps { gap_row.new ≡ bytes.gap_row_bytes gap_row.old (read_file file.now) sheet.now }
    ensures bytes { IsBytes file.now }
    ensures sheet { IsBytes sheet.now }
{
    exports::examination_gaps(file, sheet, gap_row, answer)
}

// The class call.
#[unsafe(no_mangle)]
pub extern "C" fn examination_classes(
    file: &[u8],
    class_row: &mut [u8],
    weight_row: &mut [u16],
    answer: &mut [u32; 1],
) -> u32
    ensures returned { result ≡ export.status (call.class_outcome (read_file file.now) (length class_row.old) (length weight_row.old)) }
    ensures row { answer.new ≡ export.row_after (call.class_outcome (read_file file.now) (length class_row.old) (length weight_row.old)) answer.old }
    ensures classes { class_row.new ≡ call.class_row_after (read_file file.now) class_row.old weight_row.old }
    ensures weights { weight_row.new ≡ call.weight_row_after (read_file file.now) class_row.old weight_row.old }
    ensures bytes { IsBytes file.now }
{
    exports::examination_classes(file, class_row, weight_row, answer)
}

// The archive call: returns the length of the archive form.
#[unsafe(no_mangle)]
pub extern "C" fn examination_archive(file: &[u8], row: &mut [u8]) -> u32
    ensures returned { result ≡ export.archive_status (form.archive_outcome (read_file file.now) (length row.old)) }
    ensures row { row.new ≡ form.archive_row_after (read_file file.now) row.old }
    ensures bytes { IsBytes file.now }
{
    exports::examination_archive(file, row)
}

// The board of a stop, the sheet as bytes.
#[unsafe(no_mangle)]
pub extern "C" fn examination_board(
    file: &[u8],
    sheet: &[u8],
    stop: u32,
    from: i32,
    minutes: u32,
    time_row: &mut [i64],
    line_row: &mut [u8],
    answer: &mut [u32; 1],
) -> u32
    ensures returned { result ≡ export.status (bytes.board_bytes (window stop from minutes) (length time_row.old) (length line_row.old) (read_file file.now) sheet.now) }
    ensures row { answer.new ≡ export.row_after (bytes.board_bytes (window stop from minutes) (length time_row.old) (length line_row.old) (read_file file.now) sheet.now) answer.old }
    ensures times { time_row.new ≡ bytes.time_row_bytes (window stop from minutes) time_row.old line_row.old (read_file file.now) sheet.now }
    ensures lines { line_row.new ≡ bytes.line_row_bytes (window stop from minutes) time_row.old line_row.old (read_file file.now) sheet.now }
    ensures bytes { IsBytes file.now }
    ensures sheet { IsBytes sheet.now }
{
    exports::examination_board(file, sheet, stop, from, minutes, time_row, line_row, answer)
}

// The search.
#[unsafe(no_mangle)]
pub extern "C" fn examination_search(
    file: &[u8],
    start_row: &mut [i32],
    budget: u32,
    answer: &mut [u32; 3],
) -> u32
    ensures returned { result ≡ export.search_status (search_outcome (read_file file.now) (length start_row.old) budget) }
    ensures row { answer.new ≡ export.search_row (search_outcome (read_file file.now) (length start_row.old) budget) answer.old }
    ensures starts { start_row.new ≡ start_row_after (read_file file.now) budget start_row.old }
    ensures bytes { IsBytes file.now }
{
    exports::examination_search(file, start_row, budget, answer)
}

// From a wanted gap to a timetable.
#[unsafe(no_mangle)]
pub extern "C" fn examination_wanted(
    file: &[u8],
    start_row: &mut [i32],
    gap: u16,
    budget: u32,
    answer: &mut [u32; 1],
) -> u32
    ensures returned { result ≡ export.wanted_status (wanted_outcome (read_file file.now) (length start_row.old) gap budget) }
    ensures row { answer.new ≡ export.wanted_row (wanted_outcome (read_file file.now) (length start_row.old) gap budget) answer.old }
    ensures starts { start_row.new ≡ wanted_row_after (read_file file.now) gap budget start_row.old }
    ensures bytes { IsBytes file.now }
{
    exports::examination_wanted(file, start_row, gap, budget, answer)
}

// Better-of-two, both sheets as bytes: 1 the first, 2 the second, 0 neither.
#[unsafe(no_mangle)]
pub extern "C" fn examination_better(file: &[u8], first: &[u8], second: &[u8]) -> u32
    ensures returned { result ≡ export.better_status (bytes.better_bytes (read_file file.now) first.now second.now) }
    ensures bytes { IsBytes file.now }
    ensures first { IsBytes first.now }
    ensures second { IsBytes second.now }
{
    exports::examination_better(file, first, second)
}

// Mark, the sheet as bytes.
#[unsafe(no_mangle)]
pub extern "C" fn examination_mark(
    file: &[u8],
    sheet: &[u8],
    budget: u32,
    answer: &mut [u32; 6],
) -> u32
    ensures returned { result ≡ export.mark_status (bytes.mark_bytes budget (read_file file.now) sheet.now) }
    ensures row { answer.new ≡ export.mark_row (bytes.mark_bytes budget (read_file file.now) sheet.now) answer.old }
    ensures bytes { IsBytes file.now }
    ensures sheet { IsBytes sheet.now }
{
    exports::examination_mark(file, sheet, budget, answer)
}

// Mark out of a hundred, the sheet as bytes: what the export of mark answers, and mark and remainder in a row of their own, so that a host
// that lends six places to that one keeps them.
#[unsafe(no_mangle)]
pub extern "C" fn examination_hundred(
    file: &[u8],
    sheet: &[u8],
    budget: u32,
    answer: &mut [u32; 6],
    hundred: &mut [u32; 2],
) -> u32
    ensures returned { result ≡ export.mark_status (bytes.mark_bytes budget (read_file file.now) sheet.now) }
    ensures row { answer.new ≡ export.mark_row (bytes.mark_bytes budget (read_file file.now) sheet.now) answer.old }
    ensures hundred { hundred.new ≡ export.hundred_row (bytes.mark_bytes budget (read_file file.now) sheet.now) hundred.old }
    ensures bytes { IsBytes file.now }
    ensures sheet { IsBytes sheet.now }
{
    exports::examination_hundred(file, sheet, budget, answer, hundred)
}

// Mark out of a hundred by a key, sheet and key as bytes.
#[unsafe(no_mangle)]
pub extern "C" fn examination_by_key(
    file: &[u8],
    sheet: &[u8],
    key: &[u8],
    hundred: &mut [u32; 2],
) -> u32
    ensures returned { result ≡ export.status (bytes.key_bytes (read_file file.now) sheet.now key.now) }
    ensures row { hundred.new ≡ export.row_after (bytes.key_bytes (read_file file.now) sheet.now key.now) hundred.old }
    ensures bytes { IsBytes file.now }
    ensures sheet { IsBytes sheet.now }
    ensures key { IsBytes key.now }
{
    exports::examination_by_key(file, sheet, key, hundred)
}
