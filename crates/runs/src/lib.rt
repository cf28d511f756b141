//! Runs of heard seconds: which second is next, which second a record tells, and a run as a row of a table.
#![tactic(auto)]

pub mod heard;
pub mod row;
pub mod second;

use crate::second::Second;

/// Seconds that follow one another: the first, the last, and how many.
#[repr(C)]
#[derive(Clone, Copy, Debug, PartialEq, Eq)]
pub struct Run {
    pub first: Second,
    pub last: Second,
    pub count: u32,
}
