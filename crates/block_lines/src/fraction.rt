// The line of the fraction.
ghost use Rattle.std.specs.Prelude.{◌≡◌, [], ◌≤◌, get_or};
ghost use Rattle.forms.specs.Block.{fraction_line};
ghost use Rattle.forms.specs.Fields.Fraction.{fraction_choice};
ghost use Rattle.forms.specs.Encode.{encode};
ghost use Rattle.block_lines.specs.Reading.{line_read};
ghost use Rattle.block_lines.specs.Stores.{Laid};

use crate::line::{has_number, has_word, put_number, put_word};
use crate::state::State;
use record::{Fraction, Record};

/// Reads the line of the fraction at the head of the bytes.
#[inline(never)]
pub fn read_fraction(s: &[u8], before: State) -> Option<(usize, State)>
    ensures { result ≡ line_read fraction_line s.now before }
{
    if has_word(b"fraction=", b"-", s) {
        return Some((11, before));
    }
    if has_number(b"fraction=", 3, s) {
        let fraction = Some(Fraction::Thousandths(places::number_at(s, 9, 3)));
        let known = Record {
            fraction,
            ..before.known
        };
        return Some((13, State { known, ..before }));
    }
    if has_number(b"fraction=", 7, s) {
        let fraction = Some(Fraction::TenMillionths(places::number_at(s, 9, 7)));
        let known = Record {
            fraction,
            ..before.known
        };
        return Some((17, State { known, ..before }));
    }
    if has_number(b"fraction=", 2, s) {
        let fraction = Some(Fraction::Hundredths(places::number_at(s, 9, 2)));
        let known = Record {
            fraction,
            ..before.known
        };
        return Some((12, State { known, ..before }));
    }
    None
}

/// Writes the line of the fraction at the head of the buffer, and answers how many bytes it has.
pub fn write_fraction(r: Record, out: &mut [u8]) -> usize
    ensures { Laid (get_or fraction_line (fraction_choice r.fraction) []) (encode r) result out.old out.new × (result ≤ 17) }
{
    match r.fraction {
        None => put_word(b"fraction=", b"-", out),
        Some(Fraction::Thousandths(n)) => put_number(b"fraction=", 3, n, out),
        Some(Fraction::TenMillionths(n)) => put_number(b"fraction=", 7, n, out),
        Some(Fraction::Hundredths(n)) => put_number(b"fraction=", 2, n, out),
    }
}
