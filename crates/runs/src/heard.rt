//! The second that a record tells.
ghost use Rattle.std.specs.Prelude.{◌≡◌};
ghost use Rattle.runs.specs.Heard.{second_in};

use crate::second::Second;
use record::{Date, Record};

/// The second that a record tells; only a good one with a full date does.
#[tactic(auto, unfolding(crate::specs::Heard::second_in))]
pub fn second_in(r: Record) -> Option<Second>
    ensures { result ≡ second_in r }
{
    if !r.is_good() {
        return None;
    }
    let Some(Date::Full { year, month, day }) = r.date else {
        return None;
    };
    Some(Second {
        yy: year,
        month,
        day,
        hour: r.hour,
        minute: r.minute,
        second: r.second,
    })
}
