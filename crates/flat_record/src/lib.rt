// A record as 29 numbers of 32 bits, for callers that share nothing but memory. The order:
// hour, minute, second; date (0 absent, 1 full, 2 day of year), year, month, day, day of year;
// fraction (0 absent, 1 thousandths, 2 ten-millionths, 3 hundredths), its value; channel (0 absent, 1 there), its number;
// sync, fix, utc, summer, change, leap (0 absent, 1 no, 2 yes); offset (0 absent, 1 there), negative (0, 1), minutes;
// position (0 absent, 1 in degrees, 2 in minutes), south (0, 1), latitude, west (0, 1), longitude, altitude; dsp, lsp.
#![tactic(auto)]

mod decode;
mod encode;

pub use decode::record_of;
pub use encode::put_record;

// How many numbers a record has.
pub const SIZE: usize = 29;
