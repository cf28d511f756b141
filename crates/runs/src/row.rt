//! A run as the newest row of a table.
ghost use Rattle.std.specs.Prelude.{◌≡◌};
ghost use Rattle.runs.specs.Rows.{is_row, joins};

use crate::Run;
use crate::second::{Second, is_next, is_second};

/// Whether a row can be the newest one: its last second is of the calendar, and it has at most 4,000,000,000.
#[tactic(auto, unfolding(crate::specs::Rows::is_row))]
pub fn is_row(n: Run) -> bool
    ensures { result ≡ is_row n }
{
    is_second(n.last) & (n.count <= 4000000000)
}

/// Whether a second joins the newest of so many runs.
#[tactic(auto, unfolding(crate::specs::Rows::joins))]
pub fn joins(newest: Run, rows: u32, s: Second) -> bool
    ensures { result ≡ joins newest rows s }
{
    (0 < rows) & is_next(newest.last, s)
}
