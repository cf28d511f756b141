// The block, form 9: "Lines closed by LF, these keys in this order".
#![tactic(auto)]

mod line;
mod reader;
mod writer;

pub use reader::read;
pub use writer::{put, write};
