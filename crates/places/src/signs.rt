// Offsets and degrees at places of a layout, and their signs.
ghost use Rattle.std.specs.Prelude.{◌≡◌, not, ◌||◌, ◌≤◌, eqb, get_or};
ghost use Rattle.places.specs.Places.{degrees_of, minutes_of};

use crate::inspect::{byte_at, number_at};

// The minutes of `hh:mm`.
pub fn minutes_at(s: &[u8], at: u32) -> u32
    ensures { (result ≡ minutes_of s.now at) × (result ≤ 2147483647) }
{
    let k = at as usize;
    number_at(s, k, 2) * 60 + number_at(s, k + 3, 2)
}

// The ten-thousandths of a degree of `ddd.dddd`.
pub fn degrees_at(s: &[u8], at: u32) -> u32
    ensures { (result ≡ degrees_of s.now at) × (result ≤ 2147483647) }
{
    let k = at as usize;
    number_at(s, k, 3) * 10000 + number_at(s, k + 4, 4)
}

// The sign at a place is the positive one, or the number is no zero.
pub fn sign_agrees(s: &[u8], at: usize, positive: u8, n: u32) -> bool
    ensures { result ≡ (eqb (get_or s.now at 0) positive || not (eqb n 0)) }
{
    (byte_at(s, at) == positive) | (n != 0)
}
