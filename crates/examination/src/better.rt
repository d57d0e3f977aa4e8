// Better-of-two.
ghost use Rattle.std.specs.Prelude.{◌≡◌, []};
ghost use Rattle.network.specs.Reading.{read_file};
ghost use Rattle.network.specs.Valid.{IsBytes};
ghost use Rattle.examination.specs.Sheets as sheets;

use crate::Choice;
use network::Rating;
use network::rate::rate_both;

// Which of two sheets is the better, by the ratings that rate answers; a sheet that it refuses has none, which is below every rating.
pub fn choose(file: &[u8], first: &[i32], second: &[i32]) -> Choice
    ensures choice { sheets.choice_of result ≡ sheets.better_of (read_file file.now) first.now second.now }
    ensures bytes { IsBytes file.now }
{
    let both = rate_both(file, first, second);
    let one = both.first.ok();
    let other = both.second.ok();
    if Rating::is_above(other, one) {
        Choice::Second
    } else if one.is_some() {
        Choice::First
    } else {
        Choice::Neither
    }
}

// Better-of-two: the better sheet as a part of the caller's own row, the first if they are equal. A sheet of the wrong length loses to one
// that fits; if neither fits or the file is refused, it is the empty part at the first one's beginning.
pub fn better<'a>(file: &[u8], first: &'a [i32], second: &'a [i32]) -> &'a [i32]
    ensures first { sheets.better_of (read_file file.now) first.now second.now ≡ sheets.first → result ≡ first.entry }
    ensures second { sheets.better_of (read_file file.now) first.now second.now ≡ sheets.second → result ≡ second.entry }
    ensures neither { sheets.better_of (read_file file.now) first.now second.now ≡ sheets.neither → (result.ref_ptr ≡ first.entry.ref_ptr) × (result.now ≡ []) }
    ensures bytes { IsBytes file.now }
{
    match choose(file, first, second) {
        Choice::First => first,
        Choice::Second => second,
        Choice::Neither => &first[0..0],
    }
}
