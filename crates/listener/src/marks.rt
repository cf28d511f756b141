// A listener run over a whole slice.
ghost use Rattle.std.specs.Prelude.{◌≡◌, ◌≤◌, length};
ghost use Rattle.listener.specs.Listening.{answer_of};
ghost use Rattle.std.proofs.lemmas.List.Edits.{sets};
ghost use Rattle.listener.specs.Marks.{Marked, mark_of, marks_from};

use crate::{Heard, Listener, passing_of};
use record::refusal::Refusal;

fn mark_of(heard: Heard) -> u8
    ensures { result ≡ mark_of (answer_of heard) }
{
    match heard {
        Ok(Some(_)) => 1,
        Ok(None) => 0,
        Err(_) => 2,
    }
}

// Feeds a listener every byte of a slice. The ring and the numbers stand in variables, where most bytes only are stored.
fn mark_each(l: Listener, s: &[u8], marks: &mut [u8])
    requires { length s.now ≤ length marks.old }
    ensures { marks.new ≡ sets marks.old 0 (marks_from l s.now) }
{
    let form = l.form;
    let shape = serial::shape_of(form);
    let mut bytes = l.bytes;
    let mut at = l.at;
    let mut kept = l.kept;
    let mut distance = l.distance;
    let mut i = 0;
    while i < s.len() {
        let b = s[i];
        if let Some(moved) = passing_of(shape, at, kept, distance, b) {
            bytes[moved.place] = b;
            at = moved.at;
            kept = moved.kept;
            distance = moved.distance;
            marks[i] = 0;
            i += 1;
            continue;
        }
        let listener = Listener {
            bytes,
            at,
            kept,
            distance,
            form,
        };
        let fed = listener.feed_end(b);
        let heard = fed.heard;
        marks[i] = mark_of(heard);
        let next = fed.next;
        bytes = next.bytes;
        at = next.at;
        kept = next.kept;
        distance = next.distance;
        i += 1;
    }
}

// Starts a listener for the form, feeds it every byte of the slice, and marks each byte that completes a string with 1, any other
// with 0.
pub fn mark(form: u32, s: &[u8], marks: &mut [u8]) -> Result<usize, Refusal>
    ensures { Marked form s.now result marks.old marks.new }
{
    if serial::length_of(form) == 0 {
        return Err(Refusal::UnknownForm);
    }
    if marks.len() < s.len() {
        return Err(Refusal::ShortBuffer);
    }
    let started = Listener::new(form);
    let listener = started.listener;
    mark_each(listener, s, marks);
    Ok(s.len())
}
