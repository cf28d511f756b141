// A listener that is fed a slice up to the first byte that is answered.
ghost use Rattle.std.specs.Prelude.{◌≡◌};
ghost use Rattle.listener.specs.Listening.{answer_of};
ghost use Rattle.lindenscoop.specs.Run.{RanAs, ended, is_answer, joined};

use listener::{Heard, Listener};
use serial::LONGEST;

// The state, how many bytes were fed, and the answer to the last one.
#[derive(Drop)]
pub struct Ran {
    pub listener: Listener,
    pub used: usize,
    pub heard: Heard,
}

fn ended(listener: Listener, used: usize, heard: Heard) -> Ran
    ensures { result ≡ ended listener used heard }
{
    Ran {
        listener,
        used,
        heard,
    }
}

fn is_answer(heard: Heard) -> bool
    ensures { result ≡ is_answer (answer_of heard) }
{
    !matches!(heard, Ok(None))
}

fn joined(bytes: [u8; LONGEST], at: usize, kept: usize, distance: usize, form: u32) -> Listener
    ensures { result ≡ joined form bytes at kept distance }
{
    Listener {
        bytes,
        at,
        kept,
        distance,
        form,
    }
}

// The ring and the numbers stand in variables, where most bytes only are stored.
pub(crate) fn feed_until(start: Listener, s: &[u8]) -> Ran
    ensures { RanAs start s.now result }
{
    let form = start.form;
    let shape = serial::shape_of(form);
    let mut bytes = start.bytes;
    let mut at = start.at;
    let mut kept = start.kept;
    let mut distance = start.distance;
    let mut i = 0;
    while i < s.len() {
        let b = s[i];
        i += 1;
        if let Some(moved) = listener::passing_of(shape, at, kept, distance, b) {
            bytes[moved.place] = b;
            at = moved.at;
            kept = moved.kept;
            distance = moved.distance;
            continue;
        }
        let fed = joined(bytes, at, kept, distance, form).feed_end(b);
        let next = fed.next;
        if is_answer(fed.heard) {
            return ended(next, i, fed.heard);
        }
        bytes = next.bytes;
        at = next.at;
        kept = next.kept;
        distance = next.distance;
    }
    ended(joined(bytes, at, kept, distance, form), i, Ok(None))
}
