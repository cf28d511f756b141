// Minutes of arc with their hundredths, `mm.hh`, behind whole degrees. A place is a u32, so that its sum with a width fits.
ghost use Rattle.std.specs.Prelude.{◌≡◌, ◌≤◌};
ghost use Rattle.places.specs.Places.{arc_at, arc_of};
ghost use Rattle.places.specs.Stores.{arc_stored};

use crate::inspect::{digits_at, is_at, number_at};

pub fn is_arc(s: &[u8], at: u32) -> bool
    ensures { result ≡ arc_at s.now at }
{
    let k = at as usize;
    digits_at(s, k, 2) & (is_at(s, k + 2, b'.') & digits_at(s, k + 3, 2))
}

// Hundredths of a minute.
pub fn arc_at(s: &[u8], at: u32) -> u32
    ensures { (result ≡ arc_of s.now at) × (result ≤ 1000000) }
{
    let k = at as usize;
    number_at(s, k, 2) * 100 + number_at(s, k + 3, 2)
}

pub fn put_arc(out: &mut [u8], at: u32, hundredths: u32)
    ensures { out.new ≡ arc_stored out.old at hundredths }
{
    let k = at as usize;
    spelling::put_digits(out, k, 2, hundredths % 6000 / 100);
    spelling::put_byte(out, k + 2, b'.');
    spelling::put_digits(out, k + 3, 2, hundredths % 100);
}
