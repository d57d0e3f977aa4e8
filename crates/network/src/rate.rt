// The rate call.
ghost use Rattle.std.specs.Prelude.{◌≡◌};
ghost use Rattle.network.specs.Rate.{rate_answer, rate_outcome};
ghost use Rattle.network.specs.Rating as rating;
ghost use Rattle.network.specs.Reading.{read_file, accepted};
ghost use Rattle.network.specs.Engine.Rated.{rated};
ghost use Rattle.network.specs.Engine.Scan as scan;
ghost use Rattle.network.specs.Engine.Stored.{net_of};
ghost use Rattle.network.specs.Valid.{IsBytes};

use crate::grounds::Refusal;
use crate::ratings::{rating_over, served_stops};
use crate::reader::read_network;
use crate::timetable::{Timetable, timetable_of};
use crate::{Network, RatedBoth, Rating, Unread};

impl Timetable<'_> {
    // The rating: every served stop counts once.
    fn rating(&self) -> Rating
        ensures { rated result ≡ rating.rating (net_of self.now.network.now.rows) self.now.starts.now }
    {
        let counts = served_stops(&self.network.rows);
        let weights = [1u16; Network::STOPS];
        let gaps = self.stop_gaps(&counts);
        rating_over(&gaps, &counts, &weights)
    }
}

// Rate on a network that is held: the rating of a sheet, or ground 15 where it hasn't one start for each line.
pub fn rate_network(network: &Network, sheet: &[i32]) -> Result<Rating, Refusal>
    ensures { rate_answer result ≡ rate_outcome (accepted (net_of network.now.rows)) sheet.now }
{
    Ok(timetable_of(network, sheet)?.rating())
}

// Rate on a network whose rows are lent: the rating of a sheet, or ground 15 where it hasn't one start for each line.
pub fn rate_held(
    periods: &[u16; Network::MAX_LINES],
    list: &[u32; Network::MAX_CALLS],
    lines: usize,
    calls: usize,
    sheet: &[i32],
) -> Result<Rating, Refusal>
    requires { scan.Lent periods.now list.now lines calls }
    ensures { (h : scan.Lent periods.now list.now lines calls) → rate_answer result ≡ rate_outcome (accepted (net_of h.network)) sheet.now }
{
    let network = Network::lent(periods, list, lines, calls);
    rate_network(&network, sheet)
}

// Rate: a file and a sheet of starts; its rating, or the file's refusal, or ground 15 where the sheet hasn't one start for each line.
pub fn rate(file: &[u8], sheet: &[i32]) -> Result<Rating, Refusal>
    ensures answer { rate_answer result ≡ rate_outcome (read_file file.now) sheet.now }
    ensures bytes { IsBytes file.now }
{
    let read = read_network(file);
    let network = read.as_ref()?;
    rate_network(network, sheet)
}

// Rate for each of two sheets, the file being read once.
pub fn rate_both(file: &[u8], first: &[i32], second: &[i32]) -> RatedBoth
    ensures first { rate_answer result.first ≡ rate_outcome (read_file file.now) first.now }
    ensures second { rate_answer result.second ≡ rate_outcome (read_file file.now) second.now }
    ensures bytes { IsBytes file.now }
{
    match read_network(file) {
        Err(Unread { refusal, .. }) => RatedBoth {
            first: Err(refusal),
            second: Err(refusal),
        },
        Ok(network) => RatedBoth {
            first: rate_network(&network, first),
            second: rate_network(&network, second),
        },
    }
}
