// Ratings: the gaps of all stops in one pass over the calls, and the rating over the stops that count.
ghost use Rattle.std.specs.Prelude.{◌≡◌, map, ◌++◌, ◌∷◌, [], ℕ, ◌+◌, ◌*◌, ◌<◌, ◌≤◌, true, false, length, get_or};
ghost use Rattle.network.specs.Lists.{least_from};
ghost use Rattle.network.specs.Network as net;
ghost use Rattle.network.specs.Rating as rating;
ghost use Rattle.network.specs.Engine.Scan as scan;
ghost use Rattle.network.specs.Engine.Rated.{rated};
ghost use Rattle.network.specs.Engine.Stored.{net_of, calls_in};

use crate::gaps::{arrival, gap, write_divisors};
use crate::timetable::Timetable;
use crate::{Call, Network, Rating, Rows};

impl Timetable<'_> {
    // The gap of two calls, with the divisors of the lines' periods.
    fn call_gap(&self, divisors: &[u32; Network::PAIRS], first: Call, second: Call) -> u32
        requires line_lt_max_lines { (first.line < net.max_lines) × (first.line < length self.now.starts.now) × (0 < get_or divisors.now (first.line * net.max_lines + second.line) 0) }
        requires line_lt_max_lines_2 { (second.line < net.max_lines) × (second.line < length self.now.starts.now) }
        ensures { result ≡ scan.gap_by (get_or divisors.now (first.line * net.max_lines + second.line) 0) self.now.starts.now first second }
    {
        let line = first.line as usize;
        let other = second.line as usize;
        let a = arrival(self.starts[line], first.offset);
        let b = arrival(self.starts[other], second.offset);
        gap(a, b, divisors[line * Network::MAX_LINES + other])
    }

    // The least of a number and the gaps between a call and those before it at its stop. `next` is one more than the latest of them, and
    // `previous` leads on from each to the one before.
    fn least_gap(
        &self,
        divisors: &[u32; Network::PAIRS],
        previous: &[u16; Network::MAX_CALLS],
        call: Call,
        next: u16,
        least: u32,
    ) -> u32
        requires { scan.WaysBack self.now.network.now.rows divisors.now previous.now next × scan.Beside self.now.network.now.rows self.now.starts.now call next }
        ensures { result ≡ least_from least (map (λ d. rating.gap_of_calls (net_of self.now.network.now.rows) self.now.starts.now d call) (scan.calls_before call.stop (calls_in self.now.network.now.rows.list) next)) }
    {
        let mut lesser = least;
        let mut from = next as usize;
        // A loop: each turn finds the place of the next.
        while 0 < from {
            let at = from - 1;
            let other = Call::unpacked(self.network.rows.list[at]);
            lesser = lesser.min(self.call_gap(divisors, other, call));
            from = previous[at] as usize;
        }
        lesser
    }

    // The gap of a stop with one call more: that call's period where it is the first, else the least of what the gap was and the gaps to the
    // calls before.
    fn gap_with(
        &self,
        divisors: &[u32; Network::PAIRS],
        previous: &[u16; Network::MAX_CALLS],
        call: Call,
        before: u16,
        gap: u32,
    ) -> u32
        requires { scan.WaysBack self.now.network.now.rows divisors.now previous.now before × scan.Beside self.now.network.now.rows self.now.starts.now call before }
        ensures { gap ≡ rating.gap_of_stop (net_of self.now.network.now.rows) self.now.starts.now (scan.calls_before call.stop (calls_in self.now.network.now.rows.list) before) → result ≡ rating.gap_of_stop (net_of self.now.network.now.rows) self.now.starts.now (scan.calls_before call.stop (calls_in self.now.network.now.rows.list) before ++ (call ∷ [])) }
    {
        if before == 0 {
            return self.network.rows.periods[call.line as usize] as u32;
        }
        self.least_gap(divisors, previous, call, before, gap)
    }

    // The gaps of the stops that count, in one pass over the calls. `last` has for each stop one more than the latest call there, and
    // `previous` for each call one more than the call before it at its stop, 0 where there is none.
    fn scanned_gaps(
        &self,
        divisors: &[u32; Network::PAIRS],
        counts: &[bool; Network::STOPS],
    ) -> [u32; Network::STOPS]
        requires { scan.DivisorsOf (net_of self.now.network.now.rows).periods divisors.now }
        ensures { (stop : ℕ) → stop < net.stop_count → get_or counts.now stop false ≡ true → get_or result stop 0 ≡ rating.stop_gap (net_of self.now.network.now.rows) self.now.starts.now stop }
    {
        let mut gaps = [0u32; Network::STOPS];
        let mut last = [0u16; Network::STOPS];
        let mut previous = [0u16; Network::MAX_CALLS];
        let codes = &self.network.rows.list[..self.network.rows.count];
        for (i, code) in codes.iter().enumerate() {
            let call = Call::unpacked(*code);
            let stop = call.stop as usize;
            let before = last[stop];
            if counts[stop] {
                let gap = gaps[stop];
                gaps[stop] = self.gap_with(divisors, &previous, call, before, gap);
            }
            previous[i] = before;
            last[stop] = i as u16 + 1;
        }
        gaps
    }

    // The gaps of the stops that count.
    pub fn stop_gaps(&self, counts: &[bool; Network::STOPS]) -> [u32; Network::STOPS]
        ensures { (stop : ℕ) → stop < net.stop_count → get_or counts.now stop false ≡ true → get_or result stop 0 ≡ rating.stop_gap (net_of self.now.network.now.rows) self.now.starts.now stop }
    {
        let mut divisors = [0u32; Network::PAIRS];
        let rows = &self.network.rows;
        write_divisors(&rows.periods, rows.lines, &mut divisors);
        self.scanned_gaps(&divisors, counts)
    }
}

// Whether each stop counts, by a row that says how often. A loop: an array's `map` takes longer than the gaps of a small network.
fn counted(counts: &[u8; Network::STOPS]) -> [bool; Network::STOPS]
    ensures { (stop : ℕ) → stop < net.stop_count → 0 < get_or counts.now stop 0 → get_or result stop false ≡ true }
{
    let mut flags = [false; Network::STOPS];
    for (stop, count) in counts.iter().enumerate() {
        flags[stop] = 0 < *count;
    }
    flags
}

// The gaps of the stops that count, on a sheet with one start for each line of a network whose rows are lent.
pub fn stop_gaps(
    periods: &[u16; Network::MAX_LINES],
    list: &[u32; Network::MAX_CALLS],
    calls: usize,
    sheet: &[i32],
    counts: &[u8; Network::STOPS],
) -> [u32; Network::STOPS]
    requires { scan.Lent periods.now list.now (length sheet.now) calls }
    ensures { (h : scan.Lent periods.now list.now (length sheet.now) calls) → (stop : ℕ) → stop < net.stop_count → 0 < get_or counts.now stop 0 → get_or result stop 0 ≡ rating.stop_gap (net_of h.network) sheet.now stop }
{
    let network = Network::lent(periods, list, sheet.len(), calls);
    let timetable = Timetable {
        network: &network,
        starts: sheet,
    };
    let flags = counted(counts);
    timetable.stop_gaps(&flags)
}

// The rating of stops with these gaps: those that count, with their weights in the sum. Where no stop counts, both numbers are 0.
pub fn rating_over(
    gaps: &[u32; Network::STOPS],
    counts: &[bool; Network::STOPS],
    weights: &[u16; Network::STOPS],
) -> Rating
    requires { (stop : ℕ) → stop < net.stop_count → get_or counts.now stop false ≡ true → (get_or gaps.now stop 0 ≤ net.max_period) × (get_or weights.now stop 0 ≤ scan.max_weight) }
    ensures { rated result ≡ rating.rating_by (λ stop. get_or gaps.now stop 0) (scan.counted_stops counts.now weights.now) }
{
    let mut rating = Rating::NONE;
    // By index: three rows are read.
    for stop in 0..Network::STOPS {
        if counts[stop] {
            rating = Some(Rating::with_stop(rating, gaps[stop], weights[stop] as u32));
        }
    }
    rating.unwrap_or(Rating { least: 0, sum: 0 })
}

// The served stops of a network: whether a call is at each stop.
pub fn served_stops(rows: &Rows) -> [bool; Network::STOPS]
    requires { (rows.now.count ≤ net.max_calls) × (length rows.now.list ≡ net.max_calls) }
    ensures { (stop : ℕ) → stop < net.stop_count → get_or result stop false ≡ net.is_served stop (net_of rows.now).calls }
{
    let mut row = [false; Network::STOPS];
    for code in &rows.list[..rows.count] {
        let call = Call::unpacked(*code);
        row[call.stop as usize] = true;
    }
    row
}
