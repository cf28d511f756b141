//! The runs of heard seconds of two racks, as rows of one table of 64 rows that the caller lends.
#![tactic(auto)]

ghost use Rattle.std.specs.Prelude.{◌≡◌};
ghost use Rattle.racks.specs.Rows.{added_of, added_to};

use crate::rack_rows::own_rows;
use record::Record;
use record::refusal::Refusal;
use runs::Run;
use runs::heard::second_in;
use runs::row::joins;

mod rack_rows;

/// A run of one rack, 0 or 1.
#[repr(C)]
#[derive(Clone, Copy, Debug, PartialEq, Eq)]
pub struct Row {
    pub rack: u32,
    pub run: Run,
}

/// What was done with a second: the newest run of its rack has it, or a row was opened for it.
#[derive(Clone, Copy, Debug, PartialEq, Eq)]
pub enum Outcome {
    Joined,
    Opened,
}

/// What was done with a second, or why it is refused, and the number of rows in use afterwards: a refusal leaves that number as it is.
#[derive(Clone, Copy, Debug, PartialEq, Eq)]
pub struct Added {
    pub outcome: Result<Outcome, Refusal>,
    pub used: u32,
}

// What was done, and the number of rows in use afterwards.
#[derive(Clone, Copy, Debug, PartialEq, Eq)]
struct Placed {
    outcome: Outcome,
    used: u32,
}

/// Puts a record's second into the newest run of its rack if it is the next one, and else into a row of its own. Refused are, and change
/// nothing: a rack other than 0 and 1 (16); a table of other than 64 rows, one with more than 64 in use, with a row in use of another rack
/// or more than 32 of one rack, or whose newest row of either rack has an impossible last second or a count above 4000000000 (21); a bad
/// record or one without a full date (14); and a second for which a rack of 32 rows has to open one more (15).
pub fn add(table: &mut [Row], used: u32, rack: u32, r: Record) -> Added
    ensures { (result ≡ added_of used (added_to table.old used rack r).answer) × (table.new ≡ (added_to table.old used rack r).rows) }
{
    let placed = place(table, used, rack, r);
    Added {
        outcome: placed.map(|placed| placed.outcome),
        used: placed.map_or(used, |placed| placed.used),
    }
}

// A refusal leaves before any row is stored.
fn place(table: &mut [Row], used: u32, rack: u32, r: Record) -> Result<Placed, Refusal>
    ensures { (result ≡ (added_to table.old used rack r).answer) × (table.new ≡ (added_to table.old used rack r).rows) }
{
    let (own, newest) = own_rows(table, used, rack)?;
    let second = second_in(r).ok_or(Refusal::NoSecond)?;
    if joins(newest, own.count, second) {
        let run = Run {
            last: second,
            count: newest.count + 1,
            ..newest
        };
        table[own.newest] = Row { rack, run };
        return Ok(Placed {
            outcome: Outcome::Joined,
            used,
        });
    }
    if own.count >= 32 {
        return Err(Refusal::NoRow);
    }
    let run = Run {
        first: second,
        last: second,
        count: 1,
    };
    table[used as usize] = Row { rack, run };
    Ok(Placed {
        outcome: Outcome::Opened,
        used: used + 1,
    })
}
