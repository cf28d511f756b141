//! Groups of elements at places of a lent slice, low bit first: tested and read.
ghost use Rattle.std.specs.Prelude.{◌≡◌, ℕ, ◌+◌, ◌*◌, ◌^◌, ◌≤◌, length, take, drop};
ghost use Rattle.spelling.specs.Bytes.{bits_number, groups_limit, groups_width};
ghost use Rattle.spelling.specs.Spelling.{bits, grouped, is_spelled, value_of};
ghost use Rattle.forms.specs.Slots.{ordinal};
ghost use Rattle.frame.specs.Layouts.{pair, told};

// So many elements from a place on are 0 or 1.
pub(crate) fn bits_at(s: &[u8], at: usize, w: usize) -> bool
    ensures { result ≡ is_spelled (bits w) (take w (drop at s.now)) }
{
    let x = places::part_of(s, at, w);
    (x.len() == w) & spelling::are_bits(x)
}

// The number of the elements at a place, with a bound that holds for any elements.
pub(crate) fn number_at(s: &[u8], at: usize, w: usize) -> u32
    requires { (at + w ≤ length s.now) × (w ≤ 9) }
    ensures { (result ≡ value_of (bits w) (take w (drop at s.now))) × (result ≡ bits_number (take w (drop at s.now))) × (result + 255 ≤ 255 * 2 ^ w) }
{
    spelling::bits_number(places::part_of(s, at, w))
}

// Two digits stand at a place, the low one first, with a fixed element between them.
pub(crate) fn pair_at(s: &[u8], at: usize, low: usize, between: u8, high: usize) -> bool
    requires { at + low + 1 + high ≤ 100 }
    ensures { (b : ℕ) → result ≡ is_spelled (grouped b (pair low between high)) (take (groups_width (pair low between high)) (drop at s.now)) }
{
    bits_at(s, at, low) & places::is_at(s, at + low, between) & bits_at(s, at + low + 1, high)
}

// The number of two digits in a base, the low one in so many elements at a place, the high one in so many behind the next;
// `beyond` where a digit is not below the base. The bound holds for any elements.
pub(crate) fn pair_number(
    s: &[u8],
    at: usize,
    low: usize,
    high: usize,
    base: u32,
    beyond: u32,
) -> u32
    requires { (at + low + 1 + high ≤ length s.now) × (low ≤ 9) × (high ≤ 9) × (base ≤ 512) }
    ensures { ((e : ℕ) → beyond ≡ groups_limit base (pair low e high)
        → result ≡ value_of (grouped base (pair low e high)) (take (groups_width (pair low e high)) (drop at s.now)))
        × (result ≤ 262144 + beyond) }
{
    let lower = number_at(s, at, low);
    let upper = number_at(s, at + low + 1, high);
    if (lower < base) & (upper < base) {
        lower + base * upper
    } else {
        beyond
    }
}

// The day of the year, 30-33, 35-38 and 40-41; 400 where a digit is over 9.
pub(crate) fn day_of_year(s: &[u8]) -> u32
    requires { length s.now ≡ 100 }
    ensures { result ≡ told s.now ordinal }
{
    let units = number_at(s, 30, 4);
    let tens = number_at(s, 35, 4);
    let hundreds = number_at(s, 40, 2);
    if (units < 10) & (tens < 10) & (hundreds < 10) {
        units + 10 * (tens + 10 * hundreds)
    } else {
        400
    }
}
