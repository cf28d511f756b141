//! A listener for a stream of the strings of one serial form.
#![tactic(auto)]

ghost use Rattle.std.specs.Prelude.{◌≡◌, eqb, ◌+◌, ◌-◌, ◌≤◌, ◌<◌, min};
ghost use Rattle.cond.specs.Pick.{pick};
ghost use Rattle.forms.specs.Valid.{record_in, valid_of};
ghost use Rattle.serial.specs.Shape.{longest};
ghost use Rattle.stream.specs.Distance.{distance_after, unless_overlap};
ghost use Rattle.stream.specs.Window.{last_of};
ghost use Rattle.listener.specs.Ring.{Completing, oldest_first};
ghost use Rattle.listener.specs.Listening.{FedBy, answer_of, started_of};

use record::Record;
use record::refusal::Refusal;
use serial::{LONGEST, Shape};

mod marks;
mod passing;
mod ring;

pub use marks::mark;
pub use passing::{Moved, passing_of};

/// The last bytes fed stand in a ring, the last `kept` of them count, and the next one goes to place `at`; `distance` is that since the last
/// record, and `form` the form's number. Any state may be handed in.
#[derive(Clone, Copy, Debug, PartialEq, Eq)]
pub struct Listener {
    pub bytes: [u8; LONGEST],
    pub at: usize,
    pub kept: usize,
    pub distance: usize,
    pub form: u32,
}

/// The answer to a byte: the record of a string that it completes, or nothing. Refusal 13 where the string overlaps the last one handed out, 11
/// for a state that no byte leaves.
pub type Heard = Result<Option<Record>, Refusal>;

/// The answer to a byte, beside the next state.
#[derive(Clone, Copy, Debug, PartialEq, Eq)]
pub struct Fed {
    pub next: Listener,
    pub heard: Heard,
}

/// A new listener, beside the answer to its start.
#[derive(Clone, Copy, Debug, PartialEq, Eq)]
pub struct Started {
    pub listener: Listener,
    pub answer: Result<(), Refusal>,
}

// The last n bytes of a ring, read.
fn newest(form: u32, y: [u8; LONGEST], at: usize, n: usize) -> Result<Record, Refusal>
    requires { (at < longest) × ((0 < n) × (n ≤ longest)) }
    ensures { record_in result ≡ valid_of form (last_of n (oldest_first at y)) }
{
    let from = ring::wrap(at + (LONGEST - n));
    let end = from + n;
    // Where they stand behind one another they are read there.
    if end <= LONGEST {
        return serial::read(form, &y[from..end]);
    }
    let z = ring::in_order(y, from, n);
    serial::read(form, &z[0..n])
}

// The string that byte b completes. The byte itself, the count and the first byte are tested before the reader runs.
fn completed(
    form: u32,
    shape: Shape,
    y: [u8; LONGEST],
    at: usize,
    kept: usize,
    b: u8,
) -> Result<Record, Refusal>
    requires { Completing form shape at y kept b }
    ensures { record_in result ≡ pick (eqb (kept + 1) shape.length) (valid_of form (last_of shape.length (oldest_first at y))) None }
{
    let n = shape.length;
    if b != shape.end {
        return Err(Refusal::WrongByte);
    }
    if kept + 1 != n {
        return Err(Refusal::WrongLength);
    }
    let first = ring::wrap(at + (LONGEST - n));
    if y[first] != shape.start {
        return Err(Refusal::WrongByte);
    }
    newest(form, y, at, n)
}

// The record of a string that was completed, if it ends n bytes or more behind the last one handed out.
fn emitted(reading: Result<Record, Refusal>, distance: usize, n: usize) -> Heard
    requires { (distance ≤ n) × (n ≤ longest) }
    ensures { answer_of result ≡ unless_overlap n distance (record_in reading) }
{
    match reading {
        Ok(_) if distance + 1 < n => Err(Refusal::Overlap),
        Ok(told) => Ok(Some(told)),
        Err(_) => Ok(None),
    }
}

fn one_more(distance: usize, n: usize) -> usize
    ensures { result ≡ min n (distance + 1) }
{
    if distance < n { distance + 1 } else { n }
}

fn distance_after(answer: Heard, distance: usize, n: usize) -> usize
    requires { (distance ≤ n) × (n ≤ longest) }
    ensures { result ≡ distance_after n distance (answer_of answer) }
{
    match answer {
        Ok(Some(_)) => 0,
        Ok(None) | Err(_) => one_more(distance, n),
    }
}

fn buffered_after(kept: usize, n: usize) -> usize
    requires { kept < n }
    ensures { result ≡ min (kept + 1) (n - 1) }
{
    if kept + 1 == n { kept } else { kept + 1 }
}

impl Listener {
    /// With no bytes kept. Refusal 1 where the form is no serial one; the listener is then of form 0.
    pub fn new(form: u32) -> Started
        ensures { result ≡ started_of form }
    {
        let n = serial::length_of(form);
        if n == 0 {
            return Started {
                listener: Listener {
                    bytes: [0u8; LONGEST],
                    at: 0,
                    kept: 0,
                    distance: 0,
                    form: 0,
                },
                answer: Err(Refusal::UnknownForm),
            };
        }
        Started {
            listener: Listener {
                bytes: [0u8; LONGEST],
                at: 0,
                kept: 0,
                distance: n,
                form,
            },
            answer: Ok(()),
        }
    }

    /// One byte. A state that no byte leaves comes back unchanged, with refusal 11.
    // A byte that ends no string is dismissed before the ring is handed on.
    pub fn feed(self, b: u8) -> Fed
        ensures { FedBy self b result }
    {
        let shape = serial::shape_of(self.form);
        match passing_of(shape, self.at, self.kept, self.distance, b) {
            Some(moved) => Fed {
                next: Listener {
                    bytes: ring::with_byte(self.bytes, moved.place, b),
                    at: moved.at,
                    kept: moved.kept,
                    distance: moved.distance,
                    form: self.form,
                },
                heard: Ok(None),
            },
            None => self.feed_end(b),
        }
    }

    /// The same for who has dismissed bytes that end no string: what stores them in place need not ask again.
    pub fn feed_end(self, b: u8) -> Fed
        ensures { FedBy self b result }
    {
        let shape = serial::shape_of(self.form);
        let n = shape.length;
        if n <= self.kept {
            return Fed {
                next: self,
                heard: Err(Refusal::BadState),
            };
        }
        if n < self.distance {
            return Fed {
                next: self,
                heard: Err(Refusal::BadState),
            };
        }
        let place = ring::place(self.at);
        let bytes = ring::with_byte(self.bytes, place, b);
        let at = ring::wrap(place + 1);
        let reading = completed(self.form, shape, bytes, at, self.kept, b);
        let answer = emitted(reading, self.distance, n);
        Fed {
            next: Listener {
                bytes,
                at,
                kept: buffered_after(self.kept, n),
                distance: distance_after(answer, self.distance, n),
                form: self.form,
            },
            heard: answer,
        }
    }
}
