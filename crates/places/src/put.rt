// Places of a layout stored into a lent buffer; a place without room for its bytes is left as it is.
ghost use Rattle.std.specs.Prelude.{[], ◌≡◌, ◌+◌, ◌*◌, ◌≤◌, get_or};
ghost use Rattle.cond.specs.Pick.{one_if};
ghost use Rattle.spelling.specs.Bytes.{letters};
ghost use Rattle.spelling.specs.Stored.{stored};
ghost use Rattle.record.specs.Record.{is_yes};
ghost use Rattle.places.specs.Stores.{pairs_stored, triple_stored};

use record::range::is_yes;

// The letter of this number, the first being 0; where there is none, nothing is stored.
fn put_letter(out: &mut [u8], at: usize, choices: &[u8], n: usize)
    ensures { out.new ≡ stored out.old at (get_or (letters choices.now) n []) }
{
    if n < choices.len() {
        spelling::put_byte(out, at, choices[n]);
    }
}

fn number(yes: bool) -> usize
    ensures { (result ≡ one_if yes) × (result ≤ 1) }
{
    if yes { 1 } else { 0 }
}

// The second letter where it is yes, else the first.
pub fn put_choice(out: &mut [u8], at: usize, choices: &[u8], yes: bool)
    ensures { out.new ≡ stored out.old at (get_or (letters choices.now) (one_if yes) []) }
{
    put_letter(out, at, choices, number(yes));
}

// A yes or no field by its two letters.
pub fn put_flag(out: &mut [u8], at: usize, choices: &[u8], flag: Option<bool>)
    ensures { out.new ≡ stored out.old at (get_or (letters choices.now) (one_if (is_yes flag)) []) }
{
    put_letter(out, at, choices, number(is_yes(flag)));
}

// One letter for two fields: neither, the second alone, the first alone.
pub fn put_shared(
    out: &mut [u8],
    at: usize,
    choices: &[u8],
    first: Option<bool>,
    second: Option<bool>,
)
    ensures { out.new ≡ stored out.old at (get_or (letters choices.now) (one_if (is_yes first) * 2 + one_if (is_yes second)) []) }
{
    let n = number(is_yes(first)) * 2 + number(is_yes(second));
    put_letter(out, at, choices, n);
}

// Three numbers of two digits, with the separator between them. The place is a u32, so that its sum with a width fits.
pub fn put_pairs(out: &mut [u8], at: u32, separator: u8, first: u32, second: u32, third: u32)
    ensures { out.new ≡ pairs_stored out.old at separator first second third }
{
    let k = at as usize;
    spelling::put_digits(out, k, 2, first);
    spelling::put_byte(out, k + 2, separator);
    spelling::put_digits(out, k + 3, 2, second);
    spelling::put_byte(out, k + 5, separator);
    spelling::put_digits(out, k + 6, 2, third);
}

// Three numbers of two digits, side by side.
pub fn put_triple(out: &mut [u8], at: u32, first: u32, second: u32, third: u32)
    ensures { out.new ≡ triple_stored out.old at first second third }
{
    let k = at as usize;
    spelling::put_digits(out, k, 2, first);
    spelling::put_digits(out, k + 2, 2, second);
    spelling::put_digits(out, k + 4, 2, third);
}
