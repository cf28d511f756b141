// A byte that ends no string, as most do.
ghost use Rattle.std.specs.Prelude.{◌≡◌};
ghost use Rattle.listener.specs.Passing.{passing_of};

use crate::{buffered_after, one_more, ring};
use serial::Shape;

/// What such a byte leaves: the place of the ring where it goes, then the next state's numbers.
#[derive(Clone, Copy, Debug, PartialEq, Eq)]
pub struct Moved {
    pub place: usize,
    pub at: usize,
    pub kept: usize,
    pub distance: usize,
}

/// None for any other byte, and for a state that refusal 11 names.
// Who holds the ring in place stores such a byte there: `feed` takes the state and hands back the next one, which copies the ring.
// The last byte is tested first, by itself, which is a little quicker in the loops that are handed pieces.
pub fn passing_of(shape: Shape, at: usize, kept: usize, distance: usize, b: u8) -> Option<Moved>
    ensures { result ≡ passing_of shape at kept distance b }
{
    let n = shape.length;
    if b == shape.end {
        return None;
    }
    // No state that refusal 11 names.
    if (kept < n) & (distance <= n) {
        let place = ring::place(at);
        return Some(Moved {
            place,
            at: ring::wrap(place + 1),
            kept: buffered_after(kept, n),
            distance: one_more(distance, n),
        });
    }
    None
}
