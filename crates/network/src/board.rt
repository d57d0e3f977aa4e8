// The board call: every arrival at a stop in a window of time.
ghost use Rattle.std.specs.Prelude.{◌≡◌, ℕ, ◌+◌, ◌<◌, ◌≤◌, pos, ◌+ℤ◌, ◌-ℤ◌, length, get_or, IfOk};
ghost use Rattle.network.specs.Board as board;
ghost use Rattle.network.specs.Gap as gaps;
ghost use Rattle.network.specs.Grounds as ground;
ghost use Rattle.network.specs.Lists.{count_below};
ghost use Rattle.network.specs.Network as net;
ghost use Rattle.network.specs.Reading.{read_file};
ghost use Rattle.network.specs.Engine.Due as due;
ghost use Rattle.network.specs.Engine.Stored.{net_of, check_of};
ghost use Rattle.network.specs.Valid.{IsBytes};

use crate::Network;
use crate::gaps::{arrival, residue};
use crate::grounds::{Ground, Refusal};
use crate::places::place_calls;
use crate::reader::read_network;
use crate::timetable::{Timetable, timetable_of};

// A stop's calls in their order: of the first `count` places each row has one for each call, its line, its line's period, and the minutes that have
// passed since its latest arrival. Rows of fixed length: no call allocates (docs/ABI.md).
#[derive(Clone, Copy)]
struct Due {
    pub count: usize,
    pub lines: [u8; Network::MAX_AT_STOP],
    pub periods: [u32; Network::MAX_AT_STOP],
    pub since: [u32; Network::MAX_AT_STOP],
}

// The minute so many minutes after the first one.
fn minute_after(from: i32, minutes: u32) -> i64
    ensures { result ≡ from +ℤ pos minutes }
{
    from as i64 + minutes as i64
}

// The minutes from a call's latest arrival before a minute until one minute before it.
fn minutes_since(start: i32, offset: u16, from: i32, period: u32) -> u32
    requires { 0 < period }
    ensures { result ≡ gaps.residue (from -ℤ pos 1 -ℤ (start +ℤ pos offset)) period }
{
    let before = from as i64 - 1;
    residue(before - arrival(start, offset), period)
}

impl Timetable<'_> {
    // A stop's calls by line and then offset, as they are before a minute.
    fn due_before(&self, stop: usize, from: i32) -> Due
        requires { stop < net.stop_count }
        ensures { due.Ready (net_of self.now.network.now.rows) self.now.starts.now stop from result.count result.lines result.periods result.since }
    {
        let placed = place_calls(self.network);
        let count = placed.counts[stop] as usize;
        let mut lines = [0u8; Network::MAX_AT_STOP];
        let mut periods = [0u32; Network::MAX_AT_STOP];
        let mut since = [0u32; Network::MAX_AT_STOP];
        // By index: each place fills three rows.
        for j in 0..count {
            let call = placed.call_at(stop, j);
            let line = call.line as usize;
            let period = self.network.rows.periods[line] as u32;
            lines[j] = call.line;
            periods[j] = period;
            since[j] = minutes_since(self.starts[line], call.offset, from, period);
        }
        Due {
            count,
            lines,
            periods,
            since,
        }
    }

    // The board of a stop: its arrivals are counted before the first is written, and refused by ground 23 where a row is shorter.
    fn list(
        &self,
        stop: usize,
        from: i32,
        minutes: u32,
        time_row: &mut [i64],
        line_row: &mut [u8],
    ) -> Result<u32, Refusal>
        requires { (stop < net.stop_count) × (minutes ≤ board.max_minutes) }
        ensures answer { board.board_answer result ≡ due.listed_outcome (board.board (net_of self.now.network.now.rows) self.now.starts.now (board.window stop from minutes)) (length time_row.old) (length line_row.old) }
        ensures times { time_row.new ≡ due.listed_times (board.board (net_of self.now.network.now.rows) self.now.starts.now (board.window stop from minutes)) time_row.old line_row.old }
        ensures lines { line_row.new ≡ due.listed_lines (net_of self.now.network.now.rows) (board.board (net_of self.now.network.now.rows) self.now.starts.now (board.window stop from minutes)) time_row.old line_row.old }
    {
        let mut due = self.due_before(stop, from);
        let total = due.arrivals(minutes);
        if time_row.len() < total as usize {
            return Err(Ground::BoardRowTooShort.at(0));
        }
        if line_row.len() < total as usize {
            return Err(Ground::BoardRowTooShort.at(0));
        }
        let mut at: usize = 0;
        // By index: the minute's number is what its time is made of.
        for minute in 0..minutes {
            at = due.list_minute(minute_after(from, minute), time_row, line_row, at);
        }
        Ok(total)
    }
}

impl Due {
    // How many arrivals a window has: of each call, how often its period fits between its latest arrival before the window and the window's end.
    fn arrivals(&self, minutes: u32) -> u32
        requires { due.WithinPeriods self.now.count self.now.periods self.now.since × (minutes ≤ board.max_minutes) }
        ensures { result ≡ due.arrivals_in self.now.periods self.now.since minutes self.now.count }
    {
        let rows = self.since[..self.count].iter().zip(&self.periods);
        rows.map(|(since, period)| (minutes + *since) / *period)
            .sum()
    }

    // Lists the arrivals of one minute, from place `at` of the rows on, and brings the minutes since each call's latest arrival forward. Answers the place
    // behind them.
    fn list_minute(
        &mut self,
        time: i64,
        time_row: &mut [i64],
        line_row: &mut [u8],
        at: usize,
    ) -> usize
        requires within_periods { due.WithinPeriods self.old.count self.old.periods self.old.since }
        requires count_in_bounds { (at + count_below (due.due_in self.old.periods self.old.since) self.old.count ≤ length time_row.old) × (at + count_below (due.due_in self.old.periods self.old.since) self.old.count ≤ length line_row.old) }
        ensures next { result ≡ at + count_below (due.due_in self.old.periods self.old.since) self.old.count }
        ensures times { time_row.new ≡ due.listed_in time_row.old at (λ (j : ℕ). time) (due.due_in self.old.periods self.old.since) self.old.count }
        ensures lines { line_row.new ≡ due.listed_in line_row.old at (λ (j : ℕ). get_or self.old.lines j 0) (due.due_in self.old.periods self.old.since) self.old.count }
        ensures since { (length self.new.since ≡ net.max_at_stop) × ((j : ℕ) → j < self.old.count → get_or self.new.since j 0 ≡ due.one_later self.old.periods self.old.since j) }
        ensures calls { (self.new.count ≡ self.old.count) × (self.new.lines ≡ self.old.lines) × (self.new.periods ≡ self.old.periods) }
    {
        let mut next = at;
        // By index: each place is read in three rows and written in one of them.
        for j in 0..self.count {
            let passed = self.since[j] + 1;
            if passed == self.periods[j] {
                time_row[next] = time;
                line_row[next] = self.lines[j];
                next += 1;
                self.since[j] = 0;
            } else {
                self.since[j] = passed;
            }
        }
        next
    }
}

// The grounds that need no list, 15, 8 and 22; the sheet as a timetable where none applies.
fn check_asked<'a>(
    network: &'a Network,
    sheet: &'a [i32],
    stop: u32,
    minutes: u32,
) -> Result<Timetable<'a>, Refusal>
    ensures grounds { check_of result ≡ ground.first (due.asked_grounds (length (net_of network.now.rows).periods) (length sheet.now) stop minutes) }
    ensures ok { IfOk result (λ t. (t.network.now ≡ network.now) × (t.starts.now ≡ sheet.now)) }
{
    let timetable = timetable_of(network, sheet)?;
    if (Network::MAX_STOP as u32) < stop {
        return Err(Ground::StopTooHigh.at(0));
    }
    if Network::MAX_MINUTES < minutes {
        return Err(Ground::BoardTooLong.at(0));
    }
    Ok(timetable)
}

// The board call: writes the times and lines of every arrival at the stop, from a first minute on for so many minutes, and answers how many there are; or the
// file's refusal, then ground 15, 8, 22 or 23. What lies behind the list stays, and a refusal leaves both rows as they are.
pub fn board(
    file: &[u8],
    sheet: &[i32],
    stop: u32,
    from: i32,
    minutes: u32,
    time_row: &mut [i64],
    line_row: &mut [u8],
) -> Result<u32, Refusal>
    ensures answer { board.board_answer result ≡ board.board_outcome (board.window stop from minutes) (length time_row.old) (length line_row.old) (read_file file.now) sheet.now }
    ensures times { time_row.new ≡ board.time_row_after (board.window stop from minutes) time_row.old line_row.old (read_file file.now) sheet.now }
    ensures lines { line_row.new ≡ board.line_row_after (board.window stop from minutes) time_row.old line_row.old (read_file file.now) sheet.now }
    ensures bytes { IsBytes file.now }
{
    let read = read_network(file);
    let network = read.as_ref()?;
    let timetable = check_asked(network, sheet, stop, minutes)?;
    timetable.list(stop as usize, from, minutes, time_row, line_row)
}
