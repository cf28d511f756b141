// Digits of a base stored from the last one on: one loop for decimal and hexadecimal numbers.
ghost use Rattle.std.specs.Prelude.{◌≡◌, ◌<◌, ◌≤◌};
ghost use Rattle.spelling.specs.Bytes.{hex_of, spelled_in};
ghost use Rattle.spelling.specs.Stored.{stored};

use crate::store::has_room;

fn digit(d: u64) -> u8
    requires { d < 16 }
    ensures { result ≡ hex_of d }
{
    if d < 10 {
        b'0' + d as u8
    } else {
        b'A' + (d - 10) as u8
    }
}

#[tactic(auto, using(crate::proofs::Stored::not_stored, crate::proofs::Base::spelled_length))]
// Puts the last w digits of n in a base at a place of out.
pub fn put_spelled<const BASE: u64>(out: &mut [u8], at: usize, w: usize, n: u64)
    requires positive { 0 < BASE }
    requires known { BASE ≤ 16 }
    ensures { out.new ≡ stored out.old at (spelled_in BASE hex_of w n) }
{
    if !has_room(out.len(), at, w) {
        return;
    }
    let mut rest = n;
    for i in (0..w).rev() {
        out[at + i] = digit(rest % BASE);
        rest /= BASE;
    }
}
