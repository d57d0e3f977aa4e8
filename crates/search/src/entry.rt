// The search call, and search and rate together for mark.
ghost use Rattle.std.specs.Prelude.{◌≡◌, ℕ, length, Ok};
ghost use Rattle.network.specs.Rate.{rate_answer, rate_outcome};
ghost use Rattle.network.specs.Reading.{read_file, accepted};
ghost use Rattle.network.specs.Engine.Stored.{net_of};
ghost use Rattle.network.specs.Valid.{IsBytes};
ghost use Rattle.search.specs.Engine.Representation as rows;
ghost use Rattle.search.specs.Search as spec;

use crate::walking::{walk_held, walk_on_file};
use crate::{RatedAndSearched, Rule, SearchAnswer, Walk};
use network::grounds::Refusal;
use network::rate::rate_network;
use network::reader::read_network;
use network::{Network, Rating, Unread};

// What a walk at its end answers. One that hasn't stopped has a best, since a network has a timetable.
fn outcome(walk: Walk) -> SearchAnswer
    ensures { (lines : ℕ) → spec.search_answer (Ok result) ≡ spec.outcome_of (rows.state_by lines walk) }
{
    let tries = walk.tries;
    if walk.stopped {
        match walk.best {
            Some(best) => SearchAnswer::Stopped { best, tries },
            None => SearchAnswer::StoppedWithNone { tries },
        }
    } else {
        let best = walk.best.unwrap_or(Rating { least: 0, sum: 0 });
        SearchAnswer::Finished { best, tries }
    }
}

// Search: a file, a start row and a budget; the best timetable's rating and starts, or the file's refusal, or ground 16 where the row
// hasn't one place for each line.
pub fn search(file: &[u8], row: &mut [i32], budget: u32) -> Result<SearchAnswer, Refusal>
    ensures answer { spec.search_answer result ≡ spec.search_outcome (read_file file.now) (length row.old) budget }
    ensures starts { row.new ≡ spec.start_row_after (read_file file.now) budget row.old }
    ensures bytes { IsBytes file.now }
{
    let walk = walk_on_file(file, row, Rule::AboveBest, budget)?;
    Ok(outcome(walk))
}

// Search on a network that has been read, with a start row of so many places.
fn search_held(network: &Network, places: usize, budget: u32) -> Result<SearchAnswer, Refusal>
    ensures { spec.search_answer result ≡ spec.search_outcome (accepted (net_of network.now.rows)) places budget }
{
    let walk = walk_held(network, places, Rule::AboveBest, budget)?;
    Ok(outcome(walk))
}

// Rate, and search with a start row of the sheet's length, the file being read once: what mark sets side by side.
pub fn rate_and_search(file: &[u8], sheet: &[i32], budget: u32) -> RatedAndSearched
    ensures rated { rate_answer result.rated ≡ rate_outcome (read_file file.now) sheet.now }
    ensures found { spec.search_answer result.found ≡ spec.search_outcome (read_file file.now) (length sheet.now) budget }
    ensures bytes { IsBytes file.now }
{
    match read_network(file) {
        Err(Unread { refusal, .. }) => RatedAndSearched {
            rated: Err(refusal),
            found: Err(refusal),
        },
        Ok(network) => RatedAndSearched {
            rated: rate_network(&network, sheet),
            found: search_held(&network, sheet.len(), budget),
        },
    }
}
