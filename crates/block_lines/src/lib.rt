// The lines of the block: "A line is key, `=`, value." Each has its own reader and its own writer at the head of a lent part.
#![tactic(auto)]

pub mod channel;
pub mod date;
pub mod flag;
pub mod fraction;
mod line;
mod minutes;
pub mod offset;
pub mod position;
pub mod state;
pub mod time;
