// The mark call.
ghost use Rattle.std.specs.Prelude.{◌≡◌, ◌≤◌, Ok};
ghost use Rattle.network.specs.Network.{max_period};
ghost use Rattle.network.specs.Reading.{read_file};
ghost use Rattle.network.specs.Valid.{IsBytes};
ghost use Rattle.search.specs.Search.{search_answer};
ghost use Rattle.examination.specs.Sheets as sheets;

use crate::MarkAnswer;
use crate::hundred::out_of_hundred;
use network::Rating;
use network::grounds::Refusal;
use search::SearchAnswer;
use search::entry::rate_and_search;

// A sheet of this rating beside what the search answers.
fn marked(sheet: Rating, found: SearchAnswer) -> MarkAnswer
    requires { sheet.least ≤ max_period }
    ensures { sheets.mark_answer (Ok result) ≡ sheets.marked sheet.least sheet.sum (search_answer (Ok found)) }
{
    match found {
        SearchAnswer::Finished { best, tries } => MarkAnswer::Decided {
            sheet,
            best,
            equal: Rating::is_equal(Some(sheet), Some(best)),
            hundred: out_of_hundred(sheet.least, best.least),
            tries,
        },
        SearchAnswer::Stopped { tries, .. } => MarkAnswer::Undecided { sheet, tries },
        SearchAnswer::StoppedWithNone { tries } => MarkAnswer::Undecided { sheet, tries },
    }
}

// Mark: a file, a sheet and a budget; the sheet's rating beside the best one, with the mark out of a hundred, or undecided where the search
// stops, or the refusal of rate.
pub fn mark(file: &[u8], sheet: &[i32], budget: u32) -> Result<MarkAnswer, Refusal>
    ensures answer { sheets.mark_answer result ≡ sheets.mark_outcome (read_file file.now) sheet.now budget }
    ensures bytes { IsBytes file.now }
{
    let both = rate_and_search(file, sheet, budget);
    let rating = both.rated?;
    let found = both.found?;
    Ok(marked(rating, found))
}
