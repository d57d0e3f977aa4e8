// The mark out of a hundred by a key.
ghost use Rattle.std.specs.Prelude.{◌≡◌};
ghost use Rattle.network.specs.Reading.{read_file};
ghost use Rattle.network.specs.Valid.{IsBytes};
ghost use Rattle.examination.specs.ByKey.{key_answer, key_outcome};

use crate::OutOfHundred;
use crate::hundred::out_of_hundred;
use network::grounds::Refusal;
use network::rate::rate_both;

// By a key: a file, a sheet and a key, such as the starts of a finished search; the sheet's mark beside the key's least gap, or the refusal of
// rate on the sheet, or else on the key. Many sheets are marked so by one search.
pub fn by_key(file: &[u8], sheet: &[i32], key: &[i32]) -> Result<OutOfHundred, Refusal>
    ensures answer { key_answer result ≡ key_outcome (read_file file.now) sheet.now key.now }
    ensures bytes { IsBytes file.now }
{
    let both = rate_both(file, sheet, key);
    let rating = both.first?;
    let best = both.second?;
    Ok(out_of_hundred(rating.least, best.least))
}
