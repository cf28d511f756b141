// A listener for C programs.
ghost use Rattle.std.specs.Prelude.{◌≡◌, true};
ghost use Rattle.listener.specs.Listening.{answer_of};
ghost use Rattle.lindenscoop.specs.Buffers.{both_fit, record_fits};
ghost use Rattle.lindenscoop.specs.Listener.{FedAllAs, FedAs, StartedAs, answer_number, answer_numbers};

use crate::buffers::{TOO_SHORT, both_fit, state_fits};
use crate::run::feed_until;
use crate::state::{listener_of, move_on, passing_in, put_state};
use listener::{Heard, Listener};
use record::answer::number_in;

// 0 for nothing, 100 for a record, else the refusal.
fn heard_number(heard: Heard) -> u32
    ensures { result ≡ answer_number (answer_of heard) }
{
    match heard {
        Ok(Some(_)) => 100,
        Ok(None) => 0,
        Err(refusal) => u32::from(refusal),
    }
}

// Stores a record that was handed out.
fn put_heard(heard: Heard, numbers: &mut [u32])
    requires { record_fits numbers.old ≡ true }
    ensures { numbers.new ≡ answer_numbers (answer_of heard) numbers.old }
{
    if let Ok(Some(told)) = heard {
        let _ = flat_record::put_record(told, numbers);
    }
}

/// A new listener.
pub fn lindenscoop_start_raw(form: u32, state: &mut [u8]) -> u32
    ensures { StartedAs form state.old result state.new }
{
    if !state_fits(state) {
        return TOO_SHORT;
    }
    let started = Listener::new(form);
    put_state(started.listener, state);
    number_in(started.answer)
}

// A byte that may end a string: a call of its own, since its room on the stack is paid for at entry.
#[inline(never)]
fn feed_end(state: &mut [u8], byte: u8, numbers: &mut [u32]) -> u32
    requires { both_fit state.old numbers.old ≡ true }
    ensures { FedAs state.old byte numbers.old result state.new numbers.new }
{
    let fed = listener_of(state).feed_end(byte);
    put_state(fed.next, state);
    put_heard(fed.heard, numbers);
    heard_number(fed.heard)
}

/// One byte; the record is changed where one is handed out.
pub fn lindenscoop_feed_numbers(state: &mut [u8], byte: u8, numbers: &mut [u32]) -> u32
    ensures { FedAs state.old byte numbers.old result state.new numbers.new }
{
    if !both_fit(state, numbers) {
        return TOO_SHORT;
    }
    // Most bytes end no string: for them the state is not read and written back as a whole.
    match passing_in(state, byte) {
        Some(moved) => {
            move_on(state, moved, byte);
            0
        }
        None => feed_end(state, byte, numbers),
    }
}

/// Bytes one after the other, up to the first that is answered by anything but nothing.
pub fn lindenscoop_feed_all_numbers(
    state: &mut [u8],
    bytes: &[u8],
    used: &mut usize,
    numbers: &mut [u32],
) -> u32
    ensures { FedAllAs state.old bytes.now numbers.old result
        state.new used.new numbers.new }
{
    if !both_fit(state, numbers) {
        *used = 0;
        return TOO_SHORT;
    }
    let ran = feed_until(listener_of(state), bytes);
    put_state(ran.listener, state);
    *used = ran.used;
    put_heard(ran.heard, numbers);
    heard_number(ran.heard)
}
