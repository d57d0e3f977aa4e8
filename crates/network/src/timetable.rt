// A timetable of a network.
ghost use Rattle.std.specs.Prelude.{◌≡◌, ◌≢◌, length, IfOk, OnOk, IfErr};
ghost use Rattle.network.specs.Numbers.{by_ground};
ghost use Rattle.network.specs.declared.grounds.Ground.TheVariants.{SheetLength};
ghost use Rattle.network.specs.Engine.Stored.{net_of};

use crate::Network;
use crate::grounds::{Ground, Refusal};

// One start for each line of a network.
#[derive(Clone, Copy)]
pub struct Timetable<'a> {
    pub network: &'a Network,
    pub starts: &'a [i32],
    pub ghost fits: { length starts.now ≡ length (net_of network.now.rows).periods },
}

// A sheet as a timetable of a network; ground 15 where it hasn't one start for each line.
pub fn timetable_of<'a>(network: &'a Network, sheet: &'a [i32]) -> Result<Timetable<'a>, Refusal>
    ensures ok { IfOk result (λ t. (t.network.now ≡ network.now) × (t.starts.now ≡ sheet.now)) }
    ensures fits { OnOk result (length sheet.now ≡ length (net_of network.now.rows).periods) }
    ensures err { IfErr result (λ r. (r ≡ by_ground SheetLength 0) × (length sheet.now ≢ length (net_of network.now.rows).periods)) }
{
    if sheet.len() == network.rows.lines {
        Ok(Timetable {
            network,
            starts: sheet,
        })
    } else {
        Err(Ground::SheetLength.at(0))
    }
}
