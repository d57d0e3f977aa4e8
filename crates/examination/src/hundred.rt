// The mark out of a hundred of two least gaps.
ghost use Rattle.std.specs.Prelude.{◌≡◌, ◌≤◌};
ghost use Rattle.network.specs.Network.{max_period};
ghost use Rattle.examination.specs.Hundred as hundred;

use crate::OutOfHundred;

// The mark of a least gap beside the best one, or a key's, and what is left. By 0 nothing can be divided: there it is 100 and 0, as the request
// says, whatever the least gap.
pub fn out_of_hundred(least: u32, best: u32) -> OutOfHundred
    requires { least ≤ max_period }
    ensures mark { result.mark ≡ hundred.mark_of least best }
    ensures remainder { result.remainder ≡ hundred.remainder_of least best }
{
    if best == 0 {
        return OutOfHundred {
            mark: 100,
            remainder: 0,
        };
    }
    let hundredfold = 100 * least;
    OutOfHundred {
        mark: hundredfold / best,
        remainder: hundredfold % best,
    }
}
