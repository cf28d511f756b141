// Decimal digits tested, read and spelled.
ghost use Rattle.std.specs.Prelude.{◌≡◌, ◌+◌, ◌*◌, ◌%◌, ◌^◌, ◌≤◌, length};
ghost use Rattle.spelling.specs.Bytes.{all_are, are_digits, decimal, digit_value, is_digit, is_within, number};
ghost use Rattle.spelling.specs.Stored.{stored, up_to};

use crate::digits::put_spelled;
use crate::store::put_bytes;

/// The byte is a decimal digit.
pub fn is_digit(b: u8) -> bool
    ensures { result ≡ is_digit b }
{
    b.is_ascii_digit()
}

/// Every byte is a decimal digit; true of none.
pub fn are_digits(s: &[u8]) -> bool
    ensures { result ≡ are_digits s.now }
{
    // No `all`: joined without an early end, the tests of a known length have no branches (with `all`, `contains` and `==` reading took
    // 9 to 28 in a hundred more instructions).
    let mut held = true;
    for &b in s {
        let fits = is_digit(b);
        held &= fits;
    }
    held
}

/// The low four bits: a digit's value, and 0 for a space.
pub fn digit_value(b: u8) -> u32
    ensures { (result ≡ digit_value b) × (result ≤ 15) }
{
    u32::from(b % 16)
}

/// The number that up to seven bytes spell, 0 of more or of none, with a bound that holds for any bytes.
pub fn number(s: &[u8]) -> u32
    ensures { (result ≡ up_to 7 s.now (number s.now)) × (result + 2 ≤ 2 * 10 ^ length s.now) }
{
    if 7 < s.len() {
        return 0;
    }
    let mut n = 0;
    for &b in s {
        n = n * 10 + digit_value(b);
    }
    n
}

/// Puts the last w digits of n at a place of out; nothing changes where there is no room for them.
pub fn put_digits(out: &mut [u8], at: usize, w: usize, n: u32)
    ensures { out.new ≡ stored out.old at (decimal w n) }
{
    if w == 2 {
        put_pair(out, at, n);
    } else {
        put_count(out, at, w, u64::from(n));
    }
}

// Most numbers with a place of two digits are below 100, which spares a division.
fn last_two(n: u32) -> u32
    ensures { result ≡ n % 100 }
{
    if n < 100 { n } else { n % 100 }
}

// The last two digits, by one division.
fn put_pair(out: &mut [u8], at: usize, n: u32)
    ensures { out.new ≡ stored out.old at (decimal 2 n) }
{
    let rest = last_two(n);
    let tens = rest / 10;
    let digits = [b'0' + tens as u8, b'0' + (rest - tens * 10) as u8];
    put_bytes(out, at, &digits);
}

/// Puts the last w digits of n, a number of 64 bits, at a place of out; nothing changes where there is no room for them.
#[tactic(auto, using(crate::proofs::Stores::as_decimal))]
pub fn put_count(out: &mut [u8], at: usize, w: usize, n: u64)
    ensures { out.new ≡ stored out.old at (decimal w n) }
{
    put_spelled::<10>(out, at, w, n);
}
