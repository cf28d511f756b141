// A stream reported piece by piece: what its first line asks for, the records of a piece and what is
// carried to the next one, and the last line.
#![tactic(auto)]

mod carry;
mod piece;
mod records;
mod request;
mod summary;

pub use piece::{PieceReport, report_piece};
pub use request::form_of;
pub use summary::write_end;
