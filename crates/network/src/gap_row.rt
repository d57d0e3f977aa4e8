// The gaps call: the gap of each stop in a lent row, beside the rating.
ghost use Rattle.std.specs.Prelude.{◌≡◌, ℕ, suc, ◌<◌, ◌≤◌, true, false, get_or};
ghost use Rattle.network.specs.GapRow as gap;
ghost use Rattle.network.specs.GapRow.{no_gap};
ghost use Rattle.network.specs.Lists.{pick, table};
ghost use Rattle.network.specs.Network as net;
ghost use Rattle.network.specs.Rate.{rate_answer, rate_outcome};
ghost use Rattle.network.specs.Rating as rating;
ghost use Rattle.network.specs.Reading.{read_file};
ghost use Rattle.network.specs.Engine.Rated.{rated};
ghost use Rattle.network.specs.Engine.Stored.{net_of};
ghost use Rattle.network.specs.Valid.{IsBytes};

use crate::grounds::Refusal;
use crate::ratings::{rating_over, served_stops};
use crate::reader::read_network;
use crate::timetable::{Timetable, timetable_of};
use crate::{Network, Rating};
use std::array;

// What the gap row has for a stop: its gap where the stop counts.
fn entry(gap: u32, counts: bool) -> u16
    requires { counts ≡ true → gap ≤ net.max_period }
    ensures { result ≡ pick counts gap no_gap }
{
    if counts { gap as u16 } else { Network::NO_GAP }
}

// The gap row: the gaps of the stops that count, and for the others that there is none.
fn row_of(gaps: &[u32; Network::STOPS], counts: &[bool; Network::STOPS]) -> [u16; Network::STOPS]
    requires { (stop : ℕ) → stop < net.stop_count → get_or counts.now stop false ≡ true → get_or gaps.now stop 0 ≤ net.max_period }
    ensures { result ≡ table (λ (stop : ℕ). pick (get_or counts.now stop false) (get_or gaps.now stop 0) gap.no_gap) (suc net.max_stop) }
{
    array::from_fn(|stop| entry(gaps[stop], counts[stop]))
}

impl Timetable<'_> {
    // The gap row, written to a row that is lent, and the rating: the gaps are computed once for both.
    fn put_gaps(&self, row: &mut [u16; Network::STOPS]) -> Rating
        ensures answer { rated result ≡ rating.rating (net_of self.now.network.now.rows) self.now.starts.now }
        ensures row { row.new ≡ gap.gap_row (net_of self.now.network.now.rows) self.now.starts.now }
    {
        let counts = served_stops(&self.network.rows);
        let weights = [1u16; Network::STOPS];
        let gaps = self.stop_gaps(&counts);
        *row = row_of(&gaps, &counts);
        rating_over(&gaps, &counts, &weights)
    }
}

// The gaps call: writes the gap of each stop to the lent row, 65,535 for a stop where no line calls, and answers what rate answers. Refuses as rate does,
// and then leaves the row as it is. The row is an array of fixed length, so that no other ground is needed.
pub fn gaps(file: &[u8], sheet: &[i32], row: &mut [u16; Network::STOPS]) -> Result<Rating, Refusal>
    ensures answer { rate_answer result ≡ rate_outcome (read_file file.now) sheet.now }
    ensures row { row.new ≡ gap.gap_row_after row.old (read_file file.now) sheet.now }
    ensures bytes { IsBytes file.now }
{
    let read = read_network(file);
    let network = read.as_ref()?;
    Ok(timetable_of(network, sheet)?.put_gaps(row))
}
