// Classes of stops: the class call and the weighted rating.
ghost use Rattle.std.specs.Prelude.{◌≡◌, ℕ, ◌<◌, false, eqb, length, get_or};
ghost use Rattle.network.specs.ClassCall as call;
ghost use Rattle.network.specs.Classes as class;
ghost use Rattle.network.specs.Lists.{pick};
ghost use Rattle.network.specs.Network as net;
ghost use Rattle.network.specs.Rate.{rate_answer};
ghost use Rattle.network.specs.Reading.{read_file};
ghost use Rattle.network.specs.Engine.Rated.{rated};
ghost use Rattle.network.specs.Engine.Stored.{net_of};
ghost use Rattle.network.specs.Valid.{IsBytes};

use crate::grounds::{Ground, Refusal};
use crate::places::{StopCalls, place_calls};
use crate::ratings::rating_over;
use crate::reader::read_network;
use crate::timetable::{Timetable, timetable_of};
use crate::{Network, Rating};
use std::array;

impl StopCalls<'_> {
    // The lowest stop alike to a stop, 255 if it is unserved. Of the stops below it none needs to be asked whether it is served: it would have
    // as many calls as a served stop.
    fn class_of(&self, stop: usize) -> u8
        requires { stop < net.stop_count }
        ensures { result ≡ pick (net.is_served stop (net_of self.now.network.now.rows).calls) (class.lowest_alike (net_of self.now.network.now.rows) stop) class.unserved }
    {
        if self.counts[stop] == 0 {
            return Network::UNSERVED;
        }
        // A loop, as in `same_lines`.
        for other in 0..stop {
            if self.alike(other, stop) {
                return other as u8;
            }
        }
        stop as u8
    }
}

// Fills both rows and counts the classes. The lowest stop of a class comes before the others, so that its weight is set to 0 before they
// are counted there.
fn fill_rows(network: &Network, class_row: &mut [u8], weight_row: &mut [u16]) -> u32
    requires { (length class_row.old ≡ net.stop_count) × (length weight_row.old ≡ net.stop_count) }
    ensures value { result ≡ class.class_count (net_of network.now.rows) }
    ensures class_row_after { class_row.new ≡ class.class_row (net_of network.now.rows) }
    ensures weight_row_after { weight_row.new ≡ class.weight_row (net_of network.now.rows) }
{
    let placed = place_calls(network);
    let mut count: u32 = 0;
    // By index: the stop's number is compared, and three rows are written.
    for stop in 0..Network::STOPS {
        let lowest = placed.class_of(stop);
        let at = lowest as usize;
        class_row[stop] = lowest;
        weight_row[stop] = 0;
        if at < Network::STOPS {
            weight_row[at] += 1;
        }
        if at == stop {
            count += 1;
        }
    }
    count
}

// The lowest stops: those that the class row names as their own lowest.
fn lowest_stops(classes: &[u8; Network::STOPS]) -> [bool; Network::STOPS]
    ensures { (stop : ℕ) → stop < net.stop_count → get_or result stop false ≡ eqb (get_or classes.now stop 0) stop }
{
    array::from_fn(|stop| classes[stop] == stop as u8)
}

impl Timetable<'_> {
    // The weighted rating: the gaps of the lowest stops alone are computed.
    fn weighted_rating(&self) -> Rating
        ensures { rated result ≡ call.weighted_rating (net_of self.now.network.now.rows) self.now.starts.now }
    {
        let mut classes = [0u8; Network::STOPS];
        let mut weights = [0u16; Network::STOPS];
        fill_rows(self.network, &mut classes, &mut weights);
        let counts = lowest_stops(&classes);
        let gaps = self.stop_gaps(&counts);
        rating_over(&gaps, &counts, &weights)
    }
}

// The class call: fills the class row and the weight row and answers how many classes there are; or the file's refusal, or ground 17
// where a row isn't 64 long. A refusal leaves both rows as they are.
pub fn classes(file: &[u8], class_row: &mut [u8], weight_row: &mut [u16]) -> Result<u32, Refusal>
    ensures answer { call.class_answer result ≡ call.class_outcome (read_file file.now) (length class_row.old) (length weight_row.old) }
    ensures classes { class_row.new ≡ call.class_row_after (read_file file.now) class_row.old weight_row.old }
    ensures weights { weight_row.new ≡ call.weight_row_after (read_file file.now) class_row.old weight_row.old }
    ensures bytes { IsBytes file.now }
{
    let read = read_network(file);
    let network = read.as_ref()?;
    if class_row.len() != Network::STOPS {
        return Err(Ground::ClassRowLength.at(0));
    }
    if weight_row.len() != Network::STOPS {
        return Err(Ground::ClassRowLength.at(0));
    }
    Ok(fill_rows(network, class_row, weight_row))
}

// The weighted rating, a call on a file and a sheet: it refuses as rate does.
pub fn weighted(file: &[u8], sheet: &[i32]) -> Result<Rating, Refusal>
    ensures answer { rate_answer result ≡ call.weighted_outcome (read_file file.now) sheet.now }
    ensures bytes { IsBytes file.now }
{
    let read = read_network(file);
    let network = read.as_ref()?;
    Ok(timetable_of(network, sheet)?.weighted_rating())
}
