// The line of the offset.
ghost use Rattle.std.specs.Prelude.{◌≡◌, true, [], ◌≤◌, length, get_or};
ghost use Rattle.forms.specs.Block.{offset_line};
ghost use Rattle.forms.specs.Fields.Offset.{in_minutes, decode_minutes, offset_choice, decode_offset};
ghost use Rattle.forms.specs.Fields.Sign.{sign_consistent};
ghost use Rattle.forms.specs.Places.{shape, values};
ghost use Rattle.forms.specs.Slots.{minus};
ghost use Rattle.forms.specs.Encode.{encode};
ghost use Rattle.block_lines.specs.Reading.{line_read};
ghost use Rattle.block_lines.specs.Stores.{Laid};

use crate::line::{has_word, put_word};
use crate::state::State;
use record::Record;

// `offset=+01:00`
#[tactic(auto, unfolding(forms::specs::Places::shape))]
fn has_offset(s: &[u8]) -> bool
    ensures { result ≡ shape (get_or offset_line 1 []) 0 s.now }
{
    places::text_at(s, 0, b"offset=")
        & places::letter_at(s, 7, b"+-")
        & places::digits_at(s, 8, 2)
        & places::is_at(s, 10, b':')
        & places::digits_at(s, 11, 2)
        & places::is_at(s, 13, b'\n')
}

fn offset_at(s: &[u8]) -> Option<i32>
    requires { 14 ≤ length s.now }
    ensures { result ≡ decode_offset true (values (get_or offset_line 1 []) 0 s.now minus) (decode_minutes in_minutes (values (get_or offset_line 1 []) 0 s.now)) }
{
    let behind = s[7] != b'+';
    Some(record::sign::signed_number(behind, places::minutes_at(s, 8)))
}

fn consistent_at(s: &[u8]) -> bool
    requires { 14 ≤ length s.now }
    ensures { result ≡ sign_consistent (values (get_or offset_line 1 []) 0 s.now minus) (decode_minutes in_minutes (values (get_or offset_line 1 []) 0 s.now)) }
{
    places::sign_agrees(s, 7, b'+', places::minutes_at(s, 8))
}

/// Reads the line of the offset at the head of the bytes.
#[tactic(auto, unfolding(crate::specs::Reading::decoded, crate::specs::Reading::has_any, crate::specs::Reading::line_read, crate::specs::Reading::onto, forms::specs::Block::variant_at, forms::specs::Carries::carries_of, forms::specs::Places::has, forms::specs::Places::layout_width, forms::specs::Places::values))]
#[inline(never)]
pub fn read_offset(s: &[u8], before: State) -> Option<(usize, State)>
    ensures { result ≡ line_read offset_line s.now before }
{
    if has_word(b"offset=", b"-", s) {
        return Some((9, before));
    }
    if has_offset(s) {
        let offset = offset_at(s);
        let known = Record {
            offset,
            ..before.known
        };
        let state = State {
            known,
            minutes: places::number_at(s, 11, 2),
            zone: consistent_at(s),
            ..before
        };
        return Some((14, state));
    }
    None
}

// `offset=+01:00`
#[tactic(auto, unfolding(places::specs::Stores::stores, forms::specs::Places::layout_width))]
fn put_offset(r: Record, out: &mut [u8]) -> usize
    ensures { Laid (get_or offset_line 1 []) (encode r) result out.old out.new }
{
    let minutes = fields::minutes_of(r.offset);
    spelling::put_bytes(out, 0, b"offset=");
    places::put_choice(out, 7, b"+-", fields::is_minus(r.offset));
    spelling::put_digits(out, 8, 2, minutes / 60);
    spelling::put_byte(out, 10, b':');
    spelling::put_digits(out, 11, 2, minutes % 60);
    spelling::put_byte(out, 13, b'\n');
    14
}

/// Writes the line of the offset at the head of the buffer, and answers how many bytes it has.
pub fn write_offset(r: Record, out: &mut [u8]) -> usize
    ensures { Laid (get_or offset_line (offset_choice r.offset) []) (encode r) result out.old out.new × (result ≤ 14) }
{
    match r.offset {
        None => put_word(b"offset=", b"-", out),
        Some(_) => put_offset(r, out),
    }
}
