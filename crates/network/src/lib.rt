// The network of lines and stops: the reader of network files, gaps and ratings, classes of stops, the archive form, and the board of a stop.
#![tactic(auto)]

mod alike;
pub mod archive;
pub mod board;
pub mod classes;
mod command;
pub mod divisor;
pub mod gap_row;
pub mod gaps;
pub mod grounds;
mod places;
pub mod rate;
pub mod ratings;
pub mod reader;
pub mod timetable;

ghost use Rattle.std.specs.Prelude.{◌≡◌, ℕ, ◌+◌, ◌*◌, ◌^◌, ◌<◌, ◌≤◌, length, get_or};
ghost use Rattle.network.specs.Divisor as divisor;
ghost use Rattle.network.specs.Network as net;
ghost use Rattle.network.specs.Rating as rating;
ghost use Rattle.network.specs.Engine.Scan as scan;
ghost use Rattle.network.specs.Engine.Rated.{rated, ranked};
ghost use Rattle.network.specs.Engine.Stored.{net_of, packed, call_in, Sound};
ghost use Rattle.network.specs.Valid.{Valid};

use crate::divisor::brought_forward;
use crate::grounds::Refusal;

// A line calls at a stop, `offset` minutes after its start.
#[derive(Clone, Copy)]
pub struct Call {
    pub line: u8,
    pub stop: u8,
    pub offset: u16,
}

impl Call {
    // What one line is worth in a packed call, and one stop.
    pub const LINE_UNIT: u32 = 4194304;

    pub const STOP_UNIT: u32 = 65536;

    // The call as one number. The numbers are in the order of the calls, by line, stop and offset, so that a row of them is put in order by numbers.
    pub fn packed(self) -> u32
        requires { (self.line < net.max_lines) × (self.stop ≤ net.max_stop) }
        ensures { (result ≡ packed self) × (call_in result ≡ self) }
    {
        self.line as u32 * Call::LINE_UNIT + self.stop as u32 * Call::STOP_UNIT + self.offset as u32
    }

    // The call that a number holds. Every number holds one, so that a row is read without asking what stands there.
    pub fn unpacked(code: u32) -> Call
        ensures { result ≡ call_in code }
    {
        Call {
            line: (code / Call::LINE_UNIT % Network::MAX_LINES as u32) as u8,
            stop: (code / Call::STOP_UNIT % Network::STOPS as u32) as u8,
            offset: (code % Call::STOP_UNIT) as u16,
        }
    }
}

// The rows of a network: the periods of its lines and its calls, each packed, both in file order, the common cycle, and its edition. Of each row
// the first places count: `lines` says how many places of `periods` count, and `count` says how many places of `list` count. They are of fixed
// length, here and wherever a struct has rows, since no call allocates (docs/ABI.md).
#[derive(Clone, Copy)]
pub struct Rows {
    pub lines: usize,
    pub periods: [u16; Network::MAX_LINES],
    pub count: usize,
    pub list: [u32; Network::MAX_CALLS],
    pub cycle: u32,
    pub edition: u8,
}

impl Rows {
    // Before the first command.
    pub fn new() -> Rows
        ensures { Sound result × (net_of result ≡ net.empty_net) }
    {
        Rows {
            lines: 0,
            periods: [0u16; Network::MAX_LINES],
            count: 0,
            list: [0u32; Network::MAX_CALLS],
            cycle: 1,
            edition: Network::FIRST_EDITION,
        }
    }

    // One call more.
    pub fn with_call(mut self, call: Call) -> Rows
        requires { Sound self × (self.count < net.max_calls) × (call.line < net.max_lines) × (call.stop ≤ net.max_stop) }
        ensures { Sound result × (net_of result ≡ net.with_call (net_of self) call) }
    {
        let at = self.count;
        self.list[at] = call.packed();
        self.count = at + 1;
        self
    }
}

// A network that has been read, or whose rows are lent: its rows fit one another, and it is within the limits.
#[derive(Clone, Copy)]
pub struct Network {
    pub rows: Rows,
    pub ghost sound: { Sound rows },
    pub ghost valid: { Valid (net_of rows) },
}

impl Network {
    // The edition of a file that states none, and the last that is known.
    pub const FIRST_EDITION: u8 = 1;

    pub const LATEST_EDITION: u8 = 2;

    pub const MAX_LINES: usize = 16;

    pub const MAX_PERIOD: u16 = 1440;

    pub const MAX_CYCLE: u32 = 10080;

    pub const MAX_STOP: u8 = 63;

    pub const MAX_OFFSET: u32 = 65535;

    pub const MAX_CALLS: usize = 256;

    // How often a line may call at a stop.
    pub const MAX_CALLS_AT_STOP: u8 = 2;

    // One more than the highest stop.
    pub const STOPS: usize = 64;

    // A place for each line at each stop.
    pub const TABLE: usize = 1024;

    // The most calls that a stop can have: each line as often as it may call there.
    pub const MAX_AT_STOP: usize = 32;

    // So many places for each stop.
    pub const PLACES: usize = 2048;

    // A place for each two lines.
    pub const PAIRS: usize = 256;

    // In the class row: the stop is unserved.
    pub const UNSERVED: u8 = 255;

    // In the gap row: the stop is unserved.
    pub const NO_GAP: u16 = 65535;

    // The longest board of a stop.
    pub const MAX_MINUTES: u32 = 10080;

    // The network whose rows are lent, in the first edition: neither gaps nor ratings ask for the edition. The common cycle isn't lent, and is
    // computed from the periods.
    fn lent(
        periods: &[u16; Network::MAX_LINES],
        list: &[u32; Network::MAX_CALLS],
        lines: usize,
        calls: usize,
    ) -> Network
        requires { scan.Lent periods.now list.now lines calls }
        ensures { (h : scan.Lent periods.now list.now lines calls) → net_of result.rows ≡ net.with_edition (net_of h.network) net.first_edition }
    {
        Network {
            rows: Rows {
                lines,
                periods: *periods,
                count: calls,
                list: *list,
                cycle: common_cycle(&periods[..lines]),
                edition: Network::FIRST_EDITION,
            },
        }
    }
}

// The common cycle of periods, where it is known to be within its limit.
fn common_cycle(periods: &[u16]) -> u32
    requires cycle_le { divisor.common_cycle periods.now ≤ net.max_cycle }
    requires in_range { (i : ℕ) → i < length periods.now → (0 < get_or periods.now i 0) × (get_or periods.now i 0 ≤ net.max_period) }
    ensures { result ≡ divisor.common_cycle periods.now }
{
    let mut cycle = 1;
    for period in periods {
        cycle = brought_forward(cycle, *period);
    }
    cycle
}

// Why a file is refused, and what was read up to there.
#[derive(Clone, Copy)]
pub struct Unread {
    pub refusal: Refusal,
    pub rows: Rows,
}

impl From<Unread> for Refusal {
    ghost from_gives = { λ unread refusal. refusal ≡ unread.refusal };

    fn from(unread: Unread) -> Refusal {
        unread.refusal
    }
}

// What was read is looked at where it lies (`as_ref`): by value `?` moves a kilobyte of rows at each call.
impl From<&Unread> for Refusal {
    ghost from_gives = { λ unread refusal. refusal ≡ unread.now.refusal };

    fn from(unread: &Unread) -> Refusal {
        unread.refusal
    }
}

// What a command states where no ground refuses it: a line, a call or an edition, or that the file ends.
#[derive(Clone, Copy)]
enum Stated {
    Line { period: u16, cycle: u32 },
    Calls { call: Call },
    Edition { edition: u8 },
    End,
}

// A rating: the least gap over all stops, then the sum of the gaps. Ratings are in the order of these numbers, and none is below all of them.
#[derive(Clone, Copy, PartialEq, Eq, PartialOrd, Ord)]
pub struct Rating {
    pub least: u32,
    pub sum: u32,
}

impl Rating {
    // Below every rating: what stands before the first full timetable.
    pub const NONE: Option<Rating> = None;

    // Whether a rating is above another: its least gap is larger, or that is equal and its sum is larger. A function, and the next too, since the
    // promises go by these names; this is the derived order, the next the derived equality of two ratings.
    pub fn is_above(one: Option<Rating>, other: Option<Rating>) -> bool
        ensures { result ≡ rating.is_above (ranked one) (ranked other) }
    {
        one > other
    }

    // Whether a rating is the same as another: the same least gap and the same sum, or both are none.
    pub fn is_equal(one: Option<Rating>, other: Option<Rating>) -> bool
        ensures { result ≡ rating.is_equal (ranked one) (ranked other) }
    {
        match (one, other) {
            (Some(rating), Some(beside)) => rating == beside,
            (None, None) => true,
            _ => false,
        }
    }

    // Whether a rating's least gap is a wanted one or larger. None reaches nothing, not even 0.
    pub fn reaches(one: Option<Rating>, wanted: u32) -> bool
        ensures { result ≡ rating.reaches (ranked one) wanted }
    {
        match one {
            Some(rating) => wanted <= rating.least,
            None => false,
        }
    }

    // Whether a rating's sum is larger than another's, whatever their least gaps. Beside none every rating's is.
    pub fn sum_is_above(one: Option<Rating>, other: Option<Rating>) -> bool
        ensures { result ≡ rating.is_sum_above (ranked one) (ranked other) }
    {
        match (one, other) {
            (Some(rating), Some(beside)) => beside.sum < rating.sum,
            (Some(_), None) => true,
            (None, _) => false,
        }
    }

    // The rating with one stop more.
    pub fn with_stop(before: Option<Rating>, gap: u32, weight: u32) -> Rating
        requires { (ranked before).sum + weight * gap < 2 ^ 32 }
        ensures { rated result ≡ scan.with_stop (ranked before) gap weight }
    {
        match before {
            None => Rating {
                least: gap,
                sum: weight * gap,
            },
            Some(rating) => Rating {
                least: rating.least.min(gap),
                sum: rating.sum + weight * gap,
            },
        }
    }
}

// The numbers of lines, of served stops and of calls, and the common cycle: what the read call answers of a file that is accepted.
#[derive(Clone, Copy)]
pub struct Accepted {
    pub lines: u32,
    pub stops: u32,
    pub calls: u32,
    pub cycle: u32,
}

// What rate answers for each of two sheets.
#[derive(Clone, Copy)]
pub struct RatedBoth {
    pub first: Result<Rating, Refusal>,
    pub second: Result<Rating, Refusal>,
}
