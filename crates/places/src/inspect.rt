// Places of a layout in a lent slice: the text, digits or letter that stands there. A place that lies outside holds no bytes.
ghost use Rattle.std.specs.Prelude.{[], ◌∷◌, ◌≡◌, ◌+◌, ◌*◌, ◌^◌, ◌≤◌, eqb, length, get_or, take, drop};
ghost use Rattle.spelling.specs.Bytes.{letters, same_bytes};
ghost use Rattle.spelling.specs.Spelling.{digits, hex, is_spelled, padded, words};
ghost use Rattle.places.specs.Places.{flag_of, hex_number_at, number_at, pairs_at, yes_if};

// The bytes at a place, as many of w as the slice has there.
pub fn part_of(s: &[u8], at: usize, w: usize) -> &[u8]
    ensures { result.now ≡ take w (drop at s.now) }
{
    let n = s.len();
    if n < at {
        return &s[n..n];
    }
    if n - at < w {
        return &s[at..n];
    }
    let end = at + w;
    &s[at..end]
}

// The byte at a place, 0 where there is none.
pub fn byte_at(s: &[u8], at: usize) -> u8
    ensures { result ≡ get_or s.now at 0 }
{
    if at < s.len() { s[at] } else { 0 }
}

// The text stands at a place.
pub fn text_at(s: &[u8], at: usize, text: &[u8]) -> bool
    ensures { result ≡ same_bytes (take (length text.now) (drop at s.now)) text.now }
{
    spelling::same_bytes(part_of(s, at, text.len()), text)
}

// The byte stands at a place.
#[tactic(auto, using(crate::proofs::Letters::same_byte, crate::proofs::Letters::no_byte))]
pub fn is_at(s: &[u8], at: usize, b: u8) -> bool
    ensures { result ≡ same_bytes (take 1 (drop at s.now)) (b ∷ []) }
{
    if at < s.len() { s[at] == b } else { false }
}

// So many decimal digits stand at a place.
#[tactic(auto, unfolding(spelling::specs::Spelling::is_spelled))]
pub fn digits_at(s: &[u8], at: usize, w: usize) -> bool
    ensures { result ≡ is_spelled (digits w) (take w (drop at s.now)) }
{
    let x = part_of(s, at, w);
    (x.len() == w) & spelling::are_digits(x)
}

// Digits with spaces for leading zeros stand at a place.
#[tactic(auto, unfolding(spelling::specs::Spelling::is_spelled))]
pub fn padded_at(s: &[u8], at: usize, w: usize) -> bool
    ensures { result ≡ is_spelled (padded w) (take w (drop at s.now)) }
{
    let x = part_of(s, at, w);
    (x.len() == w) & spelling::are_padded(x)
}

// The number of up to seven digits at a place, 0 where they are not all there, with a bound that holds for any bytes.
pub fn number_at(s: &[u8], at: usize, w: usize) -> u32
    ensures { (result ≡ number_at s.now at w) × (result + 2 ≤ 2 * 10 ^ w) }
{
    let x = part_of(s, at, w);
    if x.len() != w {
        return 0;
    }
    spelling::number(x)
}

// So many hexadecimal digits stand at a place.
#[tactic(auto, unfolding(spelling::specs::Spelling::is_spelled))]
pub fn hex_at(s: &[u8], at: usize, w: usize) -> bool
    ensures { result ≡ is_spelled (hex w) (take w (drop at s.now)) }
{
    let x = part_of(s, at, w);
    (x.len() == w) & spelling::are_hex(x)
}

// The number of up to seven hexadecimal digits at a place, 0 where they are not all there.
pub fn hex_number_at(s: &[u8], at: usize, w: usize) -> u32
    ensures { result ≡ hex_number_at s.now at w }
{
    let x = part_of(s, at, w);
    if x.len() != w {
        return 0;
    }
    spelling::hex_number(x)
}

// Three numbers of two digits stand at a place, with the separator between them. One test of the length serves for all their bytes.
pub fn pairs_at(s: &[u8], at: usize, separator: u8) -> bool
    ensures { result ≡ pairs_at s.now at separator }
{
    let x = part_of(s, at, 8);
    if x.len() != 8 {
        return false;
    }
    digits_at(x, 0, 2)
        & is_at(x, 2, separator)
        & digits_at(x, 3, 2)
        & is_at(x, 5, separator)
        & digits_at(x, 6, 2)
}

// One of the letters stands at a place.
#[tactic(auto, using(crate::proofs::Letters::letter_is, crate::proofs::Letters::no_letter))]
pub fn letter_at(s: &[u8], at: usize, choices: &[u8]) -> bool
    ensures { result ≡ is_spelled (words 1 (letters choices.now)) (take 1 (drop at s.now)) }
{
    if s.len() <= at {
        return false;
    }
    spelling::is_among(s[at], choices)
}

// A yes or no field by its letter for no.
pub fn flag_at(s: &[u8], at: usize, no: u8) -> Option<bool>
    ensures { result ≡ flag_of (eqb (get_or s.now at 0) no) }
{
    Some(byte_at(s, at) != no)
}

// A yes or no field by its letter for yes, where a letter tells more than one field.
pub fn yes_at(s: &[u8], at: usize, yes: u8) -> Option<bool>
    ensures { result ≡ yes_if (eqb (get_or s.now at 0) yes) }
{
    Some(byte_at(s, at) == yes)
}

// The same by a word of several letters.
pub fn word_at(s: &[u8], at: usize, yes: &[u8]) -> Option<bool>
    ensures { result ≡ yes_if (same_bytes (take (length yes.now) (drop at s.now)) yes.now) }
{
    Some(text_at(s, at, yes))
}
