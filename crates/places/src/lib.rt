// What the readers and writers of the serial forms share: places of a fixed layout in a lent slice, tested, read and stored, what
// a layout tells twice, and the tests with which every reader ends and every writer begins.
#![tactic(auto)]

mod arc;
mod inspect;
mod put;
mod signs;
mod weekdays;
mod writing;

pub use arc::{arc_at, is_arc, put_arc};
pub use inspect::{
    byte_at, digits_at, flag_at, hex_at, hex_number_at, is_at, letter_at, number_at, padded_at,
    pairs_at, part_of, text_at, word_at, yes_at,
};
pub use put::{put_choice, put_flag, put_pairs, put_shared, put_triple};
pub use signs::{degrees_at, minutes_at, sign_agrees};
pub use weekdays::{falls_on, is_weekday, weekday_of};
pub use writing::admitted;
