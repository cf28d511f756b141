// The functions that C programs call: crates/lindenscoop_c exports them, bindings/c/include/lindenscoop.h declares them. Only numbers, structs of
// numbers and slices cross: a record as numbers (crates/flat_record), a listener as bytes (state.rt). A buffer that is too short for either is
// refused with 10 before all else.
#![tactic(auto)]

pub mod add_second;
mod buffers;
pub mod calendar_raw;
pub mod index;
pub mod listener_raw;
mod run;
pub mod search_raw;
mod state;
pub mod telegrams;
