// From a wanted gap to a timetable (request A.3).
ghost use Rattle.std.specs.Prelude.{◌≡◌, ℕ, length, Ok};
ghost use Rattle.network.specs.Reading.{read_file};
ghost use Rattle.network.specs.Valid.{IsBytes};
ghost use Rattle.search.specs.Engine.Representation as rows;
ghost use Rattle.search.specs.Wanted as spec;

use crate::walking::walk_on_file;
use crate::{Rule, Walk, WantedAnswer};
use network::grounds::Refusal;

// What a walk that ends at its first full timetable answers.
fn reached(walk: Walk) -> WantedAnswer
    ensures { (lines : ℕ) → spec.wanted_answer (Ok result) ≡ spec.reached_of (rows.state_by lines walk) }
{
    let tries = walk.tries;
    if walk.best.is_some() {
        WantedAnswer::Found { tries }
    } else if walk.stopped {
        WantedAnswer::Stopped { tries }
    } else {
        WantedAnswer::None { tries }
    }
}

// Wanted: a file, a start row, a wanted gap and a budget; the first timetable of the walk with at least that gap, its starts in the row, or
// none, or stopped; or the file's refusal, or ground 16 where the row hasn't one place for each line.
pub fn wanted(file: &[u8], row: &mut [i32], gap: u16, budget: u32) -> Result<WantedAnswer, Refusal>
    ensures answer { spec.wanted_answer result ≡ spec.wanted_outcome (read_file file.now) (length row.old) gap budget }
    ensures starts { row.new ≡ spec.wanted_row_after (read_file file.now) gap budget row.old }
    ensures bytes { IsBytes file.now }
{
    let wanted = gap as u32;
    let walk = walk_on_file(file, row, Rule::AtLeast { wanted }, budget)?;
    Ok(reached(walk))
}
