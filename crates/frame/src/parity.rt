//! The parity at 75: the ones at 1 to 75 are even in number.
ghost use Rattle.std.specs.Prelude.{◌≡◌, ◌%◌, length, take, drop};
ghost use Rattle.spelling.specs.Bytes.{ones};

// The element that the elements before it ask for.
pub(crate) fn parity_of(s: &[u8]) -> u32
    requires { length s.now ≡ 100 }
    ensures { result ≡ ones (take 74 (drop 1 s.now)) % 2 }
{
    (spelling::count_ones(&s[1..75]) % 2) as u32
}
