// The walk by a rule: over a network, and on a file with a start row.
ghost use Rattle.std.specs.Prelude.{◌≡◌, ℕ, ◌<◌, ◌≤◌, length, get_or, OnOk};
ghost use Rattle.network.specs.Network as net;
ghost use Rattle.network.specs.Reading.{read_file, accepted};
ghost use Rattle.network.specs.Engine.Stored.{net_of};
ghost use Rattle.network.specs.Valid.{IsBytes};
ghost use Rattle.search.specs.Engine.Representation as rows;
ghost use Rattle.search.specs.Search as spec;

use crate::caps::cap_row;
use crate::layout::lay_out;
use crate::tries::try_starts;
use crate::{Placed, Rule, Starts, Task, Walk};
use network::Network;
use network::grounds::{Ground, Refusal};
use network::ratings::{rating_over, served_stops};
use network::reader::read_network;

// The caps as the numbers of a rating.
fn widened(row: &[u16; Network::STOPS]) -> [u32; Network::STOPS]
    ensures { (stop : ℕ) → stop < net.stop_count → get_or result stop 0 ≡ get_or row.now stop 0 }
{
    let mut wide = [0u32; Network::STOPS];
    // A loop: by an array's `map` a small network's search took a fifth longer.
    for (stop, cap) in row.iter().enumerate() {
        wide[stop] = u32::from(*cap);
    }
    wide
}

// Before the first try: no line is placed, and each stop's upper value is its cap.
fn unplaced(network: &Network) -> Placed
    ensures { rows.Represents (net_of network.now.rows) 0 result }
{
    let served = served_stops(&network.rows);
    let caps = cap_row(network, &served);
    let weights = [1u16; Network::STOPS];
    let wide = widened(&caps);
    Placed {
        starts: [0u16; Network::MAX_LINES],
        values: caps,
        upper: rating_over(&wide, &served, &weights),
    }
}

// The walk over a network by a rule.
fn walked(network: &Network, rule: Rule, budget: u32) -> Walk
    ensures { rows.state_of (net_of network.now.rows) result ≡ spec.walked (net_of network.now.rows) (rows.rule_of rule) budget }
{
    let layout = lay_out(network);
    let placed = unplaced(network);
    let task = Task { rule, budget };
    let starts = Starts {
        line: 0,
        from: 0,
        count: 1,
    };
    try_starts(&layout, task, starts, placed, Walk::FIRST)
}

// The walk over a network by a rule, or ground 16 where a start row of so many places hasn't one for each line.
pub fn walk_held(network: &Network, places: usize, rule: Rule, budget: u32) -> Result<Walk, Refusal>
    ensures ended { rows.ending_of places result ≡ spec.on_start_row (λ (n : net.Net). rows.ended (spec.walked n (rows.rule_of rule) budget)) rows.refusal (accepted (net_of network.now.rows)) places }
    ensures fits { OnOk result (places ≡ length (net_of network.now.rows).periods) }
{
    if places == network.rows.lines {
        Ok(walked(network, rule, budget))
    } else {
        Err(Ground::StartRowLength.at(0))
    }
}

// The starts of a walk's best, written to the start row.
fn write_starts(row: &mut [i32], starts: &[u16; Network::MAX_LINES])
    requires { length row.old ≤ net.max_lines }
    ensures { row.new ≡ rows.starts_of (length row.old) starts.now }
{
    for (i, place) in row.iter_mut().enumerate() {
        *place = i32::from(starts[i]);
    }
}

// The walk by a rule on a file: the file's refusal, or ground 16 where the row hasn't one place for each line, or the walk at its end, the
// starts of whose best are written to the row.
pub fn walk_on_file(file: &[u8], row: &mut [i32], rule: Rule, budget: u32) -> Result<Walk, Refusal>
    ensures ended { rows.ending_of (length row.old) result ≡ spec.on_start_row (λ (n : net.Net). rows.ended (spec.walked n (rows.rule_of rule) budget)) rows.refusal (read_file file.now) (length row.old) }
    ensures starts { row.new ≡ spec.on_start_row (λ (n : net.Net). spec.row_after_walk (spec.walked n (rows.rule_of rule) budget) row.old) (λ (number place : ℕ). row.old) (read_file file.now) (length row.old) }
    ensures bytes { IsBytes file.now }
{
    let read = read_network(file);
    let network = read.as_ref()?;
    let walk = walk_held(network, row.len(), rule, budget)?;
    if walk.best.is_some() {
        write_starts(row, &walk.starts);
    }
    Ok(walk)
}
