// The caps of the stops.
ghost use Rattle.std.specs.Prelude.{◌≡◌, map, ◌++◌, ◌∷◌, [], ℕ, ◌/◌, ◌<◌, ◌≤◌, false, pos, ◌-ℤ◌, length, get_or};
ghost use Rattle.network.specs.Network as net;
ghost use Rattle.network.specs.Rating.{calls_of_stop};
ghost use Rattle.network.specs.Divisor as divisor;
ghost use Rattle.network.specs.Gap as gaps;
ghost use Rattle.network.specs.Lists.{pick, least_from};
ghost use Rattle.network.specs.Engine.Scan.{calls_before};
ghost use Rattle.network.specs.Engine.Stored.{net_of, calls_in};
ghost use Rattle.search.specs.Caps.{pair_cap, cap};
ghost use Rattle.search.specs.Engine.CapScan.{bounds_of};

use network::divisor::gcd;
use network::gaps::gap;
use network::{Call, Network};
use std::array;

// What a pair of calls with these offsets and periods caps its stop at. Of two lines it is the half of the periods' divisor; of one line the
// exact gap of its two calls, which are as far apart as their offsets whatever the line's start.
fn pair_cap(own: bool, first: u16, second: u16, period: u32, other: u32) -> u32
    requires { 0 < period }
    ensures { result ≡ pick own (gaps.fold period (gaps.residue (pos first -ℤ pos second) period)) (divisor.gcd period other / 2) }
{
    if own {
        return gap(first as i64, second as i64, period);
    }
    gcd(period, other) / 2
}

// The least of a number and what the pairs of a call with those before it at its stop cap the stop at.
fn least_pair_cap(network: &Network, call: Call, at: usize, least: u32) -> u32
    requires { (call.line < length (net_of network.now.rows).periods) × (at ≤ network.now.rows.count) }
    ensures { result ≡ least_from least (map (λ d. pair_cap (net_of network.now.rows) d call) (calls_before call.stop (calls_in network.now.rows.list) at)) }
{
    let rows = &network.rows;
    let period = rows.periods[call.line as usize] as u32;
    let mut lesser = least;
    for code in &rows.list[..at] {
        let other = Call::unpacked(*code);
        if other.stop == call.stop {
            lesser = lesser.min(pair_cap(
                other.line == call.line,
                other.offset,
                call.offset,
                rows.periods[other.line as usize] as u32,
                period,
            ));
        }
    }
    lesser
}

// What the cap of a stop is made of: how many calls it has, the sum of C/T over them, and the least of the first one's period and what
// their pairs cap it at.
#[derive(Clone, Copy)]
pub struct Bounds {
    pub calls: u32,
    pub visits: u32,
    pub pair: u32,
}

impl Bounds {
    // Those of no call.
    const NONE: Bounds = Bounds {
        calls: 0,
        visits: 0,
        pair: 0,
    };

    // The same with one call more.
    fn with_call(self, network: &Network, call: Call, at: usize) -> Bounds
        requires line_in_bounds { (call.line < length (net_of network.now.rows).periods) × (at ≤ network.now.rows.count) }
        requires bounds_value { self ≡ bounds_of (net_of network.now.rows) (calls_before call.stop (calls_in network.now.rows.list) at) }
        ensures { result ≡ bounds_of (net_of network.now.rows) (calls_before call.stop (calls_in network.now.rows.list) at ++ (call ∷ [])) }
    {
        let period = network.rows.periods[call.line as usize] as u32;
        let visits = self.visits + network.rows.cycle / period;
        if self.calls == 0 {
            return Bounds {
                calls: 1,
                visits,
                pair: period,
            };
        }
        Bounds {
            calls: self.calls + 1,
            visits,
            pair: least_pair_cap(network, call, at, self.pair),
        }
    }
}

// What the cap of a stop is made of, over all its calls.
fn bounds_of(network: &Network, stop: u8) -> Bounds
    ensures { result ≡ bounds_of (net_of network.now.rows) (calls_of_stop (net_of network.now.rows) stop) }
{
    let mut bounds = Bounds::NONE;
    let codes = &network.rows.list[..network.rows.count];
    for (i, code) in codes.iter().enumerate() {
        let call = Call::unpacked(*code);
        if call.stop == stop {
            bounds = bounds.with_call(network, call, i);
        }
    }
    bounds
}

// The cap of a stop.
fn cap_of(network: &Network, stop: u8) -> u32
    ensures { result ≡ cap (net_of network.now.rows) stop }
{
    let bounds = bounds_of(network, stop);
    if bounds.calls < 2 {
        return bounds.pair;
    }
    bounds.pair.min(network.rows.cycle / bounds.visits)
}

// A stop's cap as the row of caps holds it. One that isn't served, as most of them in a small network, has 0 and isn't looked at.
fn held_cap(network: &Network, stop: u8, served: bool) -> u16
    requires { served ≡ net.is_served stop (net_of network.now.rows).calls }
    ensures { result ≡ cap (net_of network.now.rows) stop }
{
    if served {
        cap_of(network, stop) as u16
    } else {
        0
    }
}

// The caps of all stops.
pub fn cap_row(network: &Network, served: &[bool; Network::STOPS]) -> [u16; Network::STOPS]
    requires { (stop : ℕ) → stop < net.stop_count → get_or served.now stop false ≡ net.is_served stop (net_of network.now.rows).calls }
    ensures { (stop : ℕ) → stop < net.stop_count → get_or result stop 0 ≡ cap (net_of network.now.rows) stop }
{
    array::from_fn(|stop| held_cap(network, stop as u8, served[stop]))
}
