// Which stops are alike. Each stop's calls stand in their order, so that two stops are compared place by place.
ghost use Rattle.std.specs.Prelude.{◌≡◌, ◌<◌, ◌≤◌, eqb, pos, ◌-ℤ◌, length, get_or};
ghost use Rattle.network.specs.Classes as class;
ghost use Rattle.network.specs.Divisor as divisor;
ghost use Rattle.network.specs.Gap as gaps;
ghost use Rattle.network.specs.Lists.{all_below};
ghost use Rattle.network.specs.Network as net;
ghost use Rattle.network.specs.Engine.Placed.{SameLines, same_line_in};
ghost use Rattle.network.specs.Engine.Stored.{net_of};

use crate::divisor::gcd;
use crate::gaps::residue;
use crate::places::StopCalls;

// Whether the differences a - b and c - d leave the same remainder by the divisor of two periods.
fn same_remainder(a: u16, b: u16, c: u16, d: u16, period: u16, other: u16) -> bool
    requires { 0 < period }
    ensures { result ≡ eqb (gaps.residue (pos a -ℤ pos b) (divisor.gcd period other)) (gaps.residue (pos c -ℤ pos d) (divisor.gcd period other)) }
{
    let g = gcd(period as u32, other as u32);
    residue(a as i64 - b as i64, g) == residue(c as i64 - d as i64, g)
}

impl StopCalls<'_> {
    // Whether two stops with as many calls have the same lines, place by place.
    fn same_lines(&self, first: usize, second: usize, count: usize) -> bool
        requires { (first < net.stop_count) × (second < net.stop_count) × (count ≤ net.max_at_stop) }
        ensures { result ≡ all_below (same_line_in self.now.codes first second) count }
    {
        // A loop: by `all` here, in the two functions below, and by `find` in `class_of`, the class call took up to 1.4 times as long.
        for place in 0..count {
            if self.call_at(first, place).line != self.call_at(second, place).line {
                return false;
            }
        }
        true
    }

    // Whether the offsets at two places differ at both stops by the same remainder, where both stops have the same lines.
    fn same_difference(&self, first: usize, second: usize, place: usize, before: usize) -> bool
        requires { SameLines (net_of self.now.network.now.rows) first second × (place < length (class.ordered (net_of self.now.network.now.rows) first)) × (before < place) }
        ensures { result ≡ class.same_remainder (net_of self.now.network.now.rows) first second place before }
    {
        let a = self.call_at(first, place);
        let b = self.call_at(first, before);
        let c = self.call_at(second, place);
        let d = self.call_at(second, before);
        let periods = &self.network.rows.periods;
        same_remainder(
            a.offset,
            b.offset,
            c.offset,
            d.offset,
            periods[a.line as usize],
            periods[b.line as usize],
        )
    }

    // The same for a place and each place before it. Every pair of places is met once, at the later of the two.
    fn same_differences(&self, first: usize, second: usize, place: usize) -> bool
        requires { SameLines (net_of self.now.network.now.rows) first second × (place < length (class.ordered (net_of self.now.network.now.rows) first)) }
        ensures { result ≡ all_below (class.same_remainder (net_of self.now.network.now.rows) first second place) place }
    {
        // A loop, as in `same_lines`.
        for before in 0..place {
            if !self.same_difference(first, second, place, before) {
                return false;
            }
        }
        true
    }

    // Whether two stops are alike, of which the second is served: they have as many calls, the same lines place by place, and each two places
    // differ by the same remainder.
    pub fn alike(&self, first: usize, second: usize) -> bool
        requires { (first < net.stop_count) × (second < net.stop_count) }
        ensures { 0 < get_or self.now.counts second 0 → result ≡ class.is_alike (net_of self.now.network.now.rows) first second }
    {
        if self.counts[first] != self.counts[second] {
            return false;
        }
        let count = self.counts[first] as usize;
        if !self.same_lines(first, second, count) {
            return false;
        }
        // A loop, as in `same_lines`.
        for place in 0..count {
            if !self.same_differences(first, second, place) {
                return false;
            }
        }
        true
    }
}
