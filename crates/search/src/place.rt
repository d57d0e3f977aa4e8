// Placing a line: the upper values of its stops fall to the gaps of its calls with those placed before, its own among them.
ghost use Rattle.std.specs.Prelude.{◌≡◌, ℕ, ◌<◌, ◌≤◌, pos, ◌-ℤ◌, length, get_or};
ghost use Rattle.network.specs.Gap as gaps;
ghost use Rattle.network.specs.Network as net;
ghost use Rattle.network.specs.Engine.Rated.{ranked};
ghost use Rattle.network.specs.Engine.Stored.{net_of};
ghost use Rattle.search.specs.Engine.Representation as rows;

use crate::layout::Layout;
use crate::{Cut, Ordered, Placed, Rule, Try};
use network::{Call, Network, Rating};

// More than any arrival: an arrival is a start below 1,440 and an offset below 65,536.
const ARRIVAL_LIMIT: u32 = 67000;

// The gap of two arrivals by the divisor of their periods. The difference is raised by a multiple of the divisor, so that nothing is
// signed. The divisor's reciprocal makes two products of what would be a division, which takes longer than all the rest.
fn gap_by(divisor: u32, reciprocal: u64, earlier: u32, later: u32) -> u32
    requires divisor_nonzero { (0 < divisor) × (divisor ≤ net.max_period) × (reciprocal ≡ rows.reciprocal divisor) }
    requires earlier_lt_arrival_limit { (earlier < rows.arrival_limit) × (later < rows.arrival_limit) }
    ensures { result ≡ gaps.fold divisor (gaps.residue (pos earlier -ℤ pos later) divisor) }
{
    let apart = earlier + divisor * ARRIVAL_LIMIT - later;
    let times = apart as u64 * reciprocal / Ordered::RECIPROCAL_SCALE;
    let d = apart - times as u32 * divisor;
    if d < divisor - d { d } else { divisor - d }
}

// The cut of a rule beside the best so far.
pub fn cut_of(rule: Rule, best: Option<Rating>) -> Cut
    ensures { rows.IsCut rule (ranked best) result }
{
    match rule {
        Rule::AboveBest => match best {
            Some(rating) => Cut {
                floor: rating.least,
                sum: Some(rating.sum),
                anywhere: false,
            },
            None => Cut {
                floor: 0,
                sum: None,
                anywhere: false,
            },
        },
        Rule::AtLeast { wanted } => Cut {
            floor: wanted,
            sum: None,
            anywhere: false,
        },
        Rule::BySum { floor } => match best {
            Some(rating) => Cut {
                floor,
                sum: Some(rating.sum),
                anywhere: true,
            },
            None => Cut {
                floor,
                sum: None,
                anywhere: true,
            },
        },
    }
}

// Whether an upper rating falls short of a cut.
fn falls_short(cut: Cut, upper: Rating) -> bool
    ensures { result ≡ rows.is_short cut upper.least upper.sum }
{
    if upper.least < cut.floor {
        return true;
    }
    match cut.sum {
        Some(beside) => upper.sum <= beside && (cut.anywhere || upper.least <= cut.floor),
        None => false,
    }
}

impl Layout<'_> {
    // The least of an upper value and the gaps of a call to those before it at its stop. No gap is below 0: there the rest isn't looked at.
    fn lowered(&self, starts: &[u16; Network::MAX_LINES], at: usize, value: u16) -> u16
        requires at_in_bounds { at < length (net_of self.now.network.now.rows).calls }
        requires by_index { (i : ℕ) → get_or starts.now i 0 < net.max_period }
        ensures { result ≡ rows.lowered_at (net_of self.now.network.now.rows) starts.now at value }
    {
        let code = self.codes[at];
        let line = (code / Call::LINE_UNIT) as usize;
        let row = line * Network::MAX_LINES;
        let arrival = starts[line] as u32 + code % Call::STOP_UNIT;
        let mut least = value as u32;
        let mut from = self.previous[at] as usize;
        // A loop: each turn finds the place of the next.
        while 0 < from {
            if least == 0 {
                return 0;
            }
            let before = from - 1;
            let other = self.codes[before];
            let other_line = (other / Call::LINE_UNIT) as usize;
            let word = self.divisors[row + other_line];
            let between = gap_by(
                (word % Ordered::DIVISOR_LIMIT) as u32,
                word / Ordered::DIVISOR_LIMIT,
                starts[other_line] as u32 + other % Call::STOP_UNIT,
                arrival,
            );
            if between < least {
                least = between;
            }
            from = self.previous[before] as usize;
        }
        least as u16
    }

    // The partial timetable with one line more. Values only fall, so where the rating falls short after some of the line's calls, it does after
    // all of them, and the rest isn't looked at.
    pub fn place(&self, cut: Cut, due: Try, placed: Placed) -> Placed
        requires { rows.CanPlace (net_of self.now.network.now.rows) due.line due.start placed }
        ensures { rows.PlacedOr (net_of self.now.network.now.rows) cut due placed result }
    {
        let line = due.line;
        let begin = (self.lines[line] % Ordered::PLACES) as usize;
        let end = (self.lines[line + 1] % Ordered::PLACES) as usize;
        let mut next = placed;
        next.starts[line] = due.start;
        // By index: the place of the call is what is handed on.
        for i in begin..end {
            if falls_short(cut, next.upper) {
                return next;
            }
            let stop = (self.codes[i] / Call::STOP_UNIT % Network::STOPS as u32) as usize;
            let old = next.values[stop];
            let value = self.lowered(&next.starts, i, old);
            next.values[stop] = value;
            next.upper.sum = next.upper.sum + value as u32 - old as u32;
            if (value as u32) < next.upper.least {
                next.upper.least = value as u32;
            }
        }
        next
    }
}
