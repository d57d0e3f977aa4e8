// The reader of network files: a loop that carries the part of the file behind the command just read.
ghost use Rattle.std.specs.Prelude.{◌≡◌, List, ℕ, ◌+◌, ◌*◌, ◌^◌, ◌<◌, ◌≤◌, ltb, length, get_or, drop, IsOk, Some};
ghost use Rattle.network.specs.Lists as lists;
ghost use Rattle.network.specs.Network as net;
ghost use Rattle.network.specs.Grounds as ground;
ghost use Rattle.network.specs.Reading as reading;
ghost use Rattle.network.specs.Engine.Commands.{kind_of};
ghost use Rattle.network.specs.Engine.Stored.{net_of, Sound, InStep, IsParsed, check_of, ComesTo};
ghost use Rattle.network.specs.Engine.Read.{reading_of, rows_read};
ghost use Rattle.network.specs.Valid.{IsBytes};

use crate::command::Command;
use crate::divisor::brought_forward;
use crate::grounds::{Ground, Refusal};
use crate::ratings::served_stops;
use crate::{Accepted, Call, Network, Rows, Stated, Unread};

// A number of two bytes from a place on, most significant byte first.
#[tactic(auto, unfolding(crate::specs::Network::word))]
pub fn word(bytes: &[u8], at: usize) -> u16
    requires { at + 1 < length bytes.now }
    ensures { result ≡ net.word bytes.now at }
{
    u16::from_be_bytes([bytes[at], bytes[at + 1]])
}

// The part of the file behind a command: what stands behind its byte, without its operands.
fn part_behind(command: Command, behind: &[u8]) -> &[u8]
    requires { net.operand_bytes (kind_of (Some command)) ≤ length behind.now }
    ensures { result.now ≡ drop (net.operand_bytes (kind_of (Some command))) behind.now }
{
    &behind[command.operand_bytes()..]
}

// 43 and 46: whether ground 3 applies, the operands being cut off.
fn call_cut_off(behind: &[u8]) -> bool
    ensures { result ≡ ground.cut_off net.calls_by_offset behind.now }
{
    behind.len() < 4
}

// What has been read of a file: the network so far, and beside it how often each line calls at each stop, and for each line one more than its
// latest call's offset, 0 where it has no call. So no ground goes over the calls before. Rows of fixed length: no call allocates (docs/ABI.md).
#[derive(Drop)]
struct Reader {
    rows: Rows,
    often: [u8; Network::TABLE],
    latest: [u32; Network::MAX_LINES],
    ghost in_step: { InStep rows often latest },
}

impl Reader {
    // Before the first command.
    fn new() -> Reader
        ensures { net_of result.rows ≡ net.empty_net }
    {
        Reader {
            rows: Rows::new(),
            often: [0u8; Network::TABLE],
            latest: [0u32; Network::MAX_LINES],
        }
    }

    // 4C: grounds 3 to 6, or a line. Of this and of each command it is told which ground applies first, or what the command states, `behind` being the
    // part of the file behind its byte and `at` that byte's place.
    fn read_line(&self, behind: &[u8], at: usize) -> Result<Stated, Refusal>
        ensures { IsParsed net.states_line (net.so_far (net_of self.now.rows)) at behind.now result }
    {
        if behind.len() < 2 {
            return Err(Ground::CutOff.at(at));
        }
        if Network::MAX_LINES <= self.rows.lines {
            return Err(Ground::TooManyLines.at(at));
        }
        let period = word(behind, 0);
        if period < 1 {
            return Err(Ground::PeriodOutOfRange.at(at));
        }
        if Network::MAX_PERIOD < period {
            return Err(Ground::PeriodOutOfRange.at(at));
        }
        let cycle = brought_forward(self.rows.cycle, period);
        if Network::MAX_CYCLE < cycle {
            return Err(Ground::CycleTooLong.at(at));
        }
        Ok(Stated::Line { period, cycle })
    }

    // How often a line calls at a stop.
    fn often_at(&self, line: usize, stop: usize) -> u8
        requires { (line < net.max_lines) × (stop < net.stop_count) }
        ensures { result ≡ get_or self.now.often (stop * net.max_lines + line) 0 }
    {
        self.often[stop * Network::MAX_LINES + line]
    }

    // 43 and 46: the grounds that they share once their operands are there, 7 to 10.
    fn check_call(&self, behind: &[u8], at: usize) -> Result<(), Refusal>
        requires { 4 ≤ length behind.now }
        ensures value { check_of result ≡ ground.first (ground.call_grounds (net.so_far (net_of self.now.rows)) at behind.now) }
        ensures line_stated { IsOk result → get_or behind.now 0 0 < self.now.rows.lines }
    {
        let line = behind[0] as usize;
        let stop = behind[1];
        if self.rows.lines <= line {
            return Err(Ground::LineNotStated.at(at));
        }
        if Network::MAX_STOP < stop {
            return Err(Ground::StopTooHigh.at(at));
        }
        if Network::MAX_CALLS_AT_STOP <= self.often_at(line, stop as usize) {
            return Err(Ground::CallsTooOften.at(at));
        }
        if Network::MAX_CALLS <= self.rows.count {
            return Err(Ground::TooManyCalls.at(at));
        }
        Ok(())
    }

    // 43: the grounds of a call, or a call.
    fn read_call(&self, behind: &[u8], at: usize) -> Result<Stated, Refusal>
        ensures { IsParsed net.calls_by_offset (net.so_far (net_of self.now.rows)) at behind.now result }
    {
        if call_cut_off(behind) {
            return Err(Ground::CutOff.at(at));
        }
        self.check_call(behind, at)?;
        let call = Call {
            line: behind[0],
            stop: behind[1],
            offset: word(behind, 2),
        };
        Ok(Stated::Calls { call })
    }

    // 46: ground 3, then 19, the grounds of a call, and those of the ride.
    fn read_ride(&self, behind: &[u8], at: usize) -> Result<Stated, Refusal>
        ensures { IsParsed net.calls_by_ride (net.so_far (net_of self.now.rows)) at behind.now result }
    {
        if call_cut_off(behind) {
            return Err(Ground::CutOff.at(at));
        }
        if Network::FIRST_EDITION < self.rows.edition {
            return Err(Ground::RideInEdition.at(at));
        }
        self.check_call(behind, at)?;
        self.read_following_call(behind, at)
    }

    // 46 where ground 19 and the grounds of a call are passed: grounds 11 and 12, or a call. The sum is of 64 bits, so that it fits whatever the row
    // holds.
    fn read_following_call(&self, behind: &[u8], at: usize) -> Result<Stated, Refusal>
        requires { (4 ≤ length behind.now) × (get_or behind.now 0 0 < net.max_lines) }
        ensures { self.now.rows.edition ≤ net.first_edition → ground.first (ground.call_grounds (net.so_far (net_of self.now.rows)) at behind.now) ≡ ground.Passes → IsParsed net.calls_by_ride (net.so_far (net_of self.now.rows)) at behind.now result }
    {
        let line = behind[0];
        let before = self.latest[line as usize];
        if before == 0 {
            return Err(Ground::NoEarlierCall.at(at));
        }
        let offset = (before - 1) as u64 + word(behind, 2) as u64;
        if (Network::MAX_OFFSET as u64) < offset {
            return Err(Ground::OffsetTooLarge.at(at));
        }
        let call = Call {
            line,
            stop: behind[1],
            offset: offset as u16,
        };
        Ok(Stated::Calls { call })
    }

    // Whether every line has a call.
    fn every_line_calls(&self) -> bool
        ensures { result ≡ lists.all_below (λ line. ltb 0 (get_or self.now.latest line 0)) self.now.rows.lines }
    {
        self.latest[..self.rows.lines]
            .iter()
            .all(|latest| 0 < *latest)
    }

    // 45: grounds 13 and 14, or the end of the file.
    fn read_end(&self, behind: &[u8], at: usize) -> Result<Stated, Refusal>
        requires { at < 2 ^ 63 }
        ensures { IsParsed net.ends (net.so_far (net_of self.now.rows)) at behind.now result }
    {
        if self.rows.lines == 0 {
            return Err(Ground::LineWithoutCall.at(at));
        }
        if !self.every_line_calls() {
            return Err(Ground::LineWithoutCall.at(at));
        }
        if !behind.is_empty() {
            return Err(Ground::BytesBehindEnd.at(at + 1));
        }
        Ok(Stated::End)
    }

    // One command.
    #[tactic(auto, unfolding(crate::specs::Engine::Commands::kind_of))]
    fn read_command(&self, command: Command, behind: &[u8], at: usize) -> Result<Stated, Refusal>
        requires { at < 2 ^ 63 }
        ensures { IsParsed (kind_of (Some command)) (net.so_far (net_of self.now.rows)) at behind.now result }
    {
        match command {
            Command::Line => self.read_line(behind, at),
            Command::Call => self.read_call(behind, at),
            Command::Ride => self.read_ride(behind, at),
            Command::End => self.read_end(behind, at),
            Command::Edition => read_edition(behind, at),
        }
    }

    // Another edition.
    fn set_edition(&mut self, edition: u8)
        ensures { net_of self.new.rows ≡ net.with_edition (net_of self.old.rows) edition }
    {
        self.rows.edition = edition;
    }

    // One line more, which makes the common cycle this one.
    fn add_line(&mut self, period: u16, cycle: u32)
        requires { (self.old.rows.lines < net.max_lines) × (0 < cycle) × (cycle ≤ net.max_cycle) × (cycle ≡ net.cycle (net.with_line (net_of self.old.rows) period)) }
        ensures { net_of self.new.rows ≡ net.with_line (net_of self.old.rows) period }
    {
        let line = self.rows.lines;
        self.rows.periods[line] = period;
        self.rows.lines = line + 1;
        self.rows.cycle = cycle;
    }

    // One call more.
    fn add_call(&mut self, call: Call)
        requires room { (self.old.rows.count < net.max_calls) × (get_or self.old.often (call.stop * net.max_lines + call.line) 0 < net.max_calls_at_stop) }
        requires within { (call.line < net.max_lines) × (call.stop ≤ net.max_stop) }
        ensures { net_of self.new.rows ≡ net.with_call (net_of self.old.rows) call }
    {
        let line = call.line as usize;
        let place = self.rows.count;
        self.rows.list[place] = call.packed();
        self.rows.count = place + 1;
        self.often[call.stop as usize * Network::MAX_LINES + line] += 1;
        self.latest[line] = call.offset as u32 + 1;
    }
}

// 56: grounds 3, 20 and 21, or an edition. It may only open a file.
fn read_edition(behind: &[u8], at: usize) -> Result<Stated, Refusal>
    ensures { (f : net.SoFar) → IsParsed net.states_edition f at behind.now result }
{
    if behind.is_empty() {
        return Err(Ground::CutOff.at(at));
    }
    if 0 < at {
        return Err(Ground::EditionNotFirst.at(at));
    }
    let edition = behind[0];
    if edition < Network::FIRST_EDITION {
        return Err(Ground::EditionUnknown.at(at));
    }
    if Network::LATEST_EDITION < edition {
        return Err(Ground::EditionUnknown.at(at));
    }
    Ok(Stated::Edition { edition })
}

// The whole file: the network, or the first ground that applies. The loop carries the part behind the command just read, since a command says
// where the next begins. Beside a refusal stands what was read up to there.
pub fn read_network(file: &[u8]) -> Result<Network, Unread>
    ensures { Sound (rows_read result) × (reading_of result ≡ reading.read_file file.now) × ((rest : List ℕ) × ComesTo file.now rest (rows_read result)) }
{
    let mut reader = Reader::new();
    let mut rest = file;
    while 0 < rest.len() {
        let at = file.len() - rest.len();
        let behind = &rest[1..];
        let Some(command) = Command::of(rest[0]) else {
            return Err(Unread {
                refusal: Ground::UnknownCommand.at(at),
                rows: reader.rows,
            });
        };
        let stated = match reader.read_command(command, behind, at) {
            Ok(stated) => stated,
            Err(refusal) => {
                return Err(Unread {
                    refusal,
                    rows: reader.rows,
                });
            }
        };
        match stated {
            Stated::End => return Ok(Network { rows: reader.rows }),
            Stated::Edition { edition } => reader.set_edition(edition),
            Stated::Line { period, cycle } => reader.add_line(period, cycle),
            Stated::Calls { call } => reader.add_call(call),
        }
        rest = part_behind(command, behind);
    }
    Err(Unread {
        refusal: Ground::NoCommand.at(file.len()),
        rows: reader.rows,
    })
}

// How many stops a network serves.
fn count_served(network: &Network) -> u32
    ensures { result ≡ net.served_stops (net_of network.now.rows) }
{
    served_stops(&network.rows)
        .iter()
        .map(|serves| u32::from(*serves))
        .sum()
}

// The read call: the numbers of lines, served stops and calls, and the common cycle; or the refusal.
#[tactic(auto, unfolding(crate::specs::Valid::IsBytes))]
pub fn read(file: &[u8]) -> Result<Accepted, Refusal>
    ensures answer { reading.read_answer result ≡ reading.read_outcome (reading.read_file file.now) }
    ensures bytes { IsBytes file.now }
{
    let read = read_network(file);
    let network = read.as_ref()?;
    Ok(Accepted {
        lines: network.rows.lines as u32,
        stops: count_served(network),
        calls: network.rows.count as u32,
        cycle: network.rows.cycle,
    })
}
