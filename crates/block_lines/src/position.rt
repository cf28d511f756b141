// The line of the position, and its value in degrees.
ghost use Rattle.std.specs.Prelude.{◌≡◌, true, [], ◌+◌, ◌≤◌, length, get_or};
ghost use Rattle.forms.specs.Block.{position_line};
ghost use Rattle.forms.specs.Fields.Position.{decode_position, degrees, position_choice, position_consistent};
ghost use Rattle.forms.specs.Places.{shape, values};
ghost use Rattle.forms.specs.Encode.{encode};
ghost use Rattle.block_lines.specs.Reading.{degrees_at, line_read};
ghost use Rattle.block_lines.specs.Stores.{Laid, degrees_stored};

use crate::line::{has_word, put_word};
use crate::minutes;
use crate::state::State;
use record::{Position, Record};

// `+047.3500`. The place is a u32, so that its sum with a width fits.
fn has_degrees(s: &[u8], at: u32) -> bool
    ensures { result ≡ degrees_at s.now at }
{
    let k = at as usize;
    places::letter_at(s, k, b"+-")
        & places::digits_at(s, k + 1, 3)
        & places::is_at(s, k + 4, b'.')
        & places::digits_at(s, k + 5, 4)
}

// `position=+047.3500 +008.0625 0431`
fn has_position(s: &[u8]) -> bool
    ensures { result ≡ shape (get_or position_line 1 []) 0 s.now }
{
    places::text_at(s, 0, b"position=")
        & has_degrees(s, 9)
        & places::is_at(s, 18, b' ')
        & has_degrees(s, 19)
        & places::is_at(s, 28, b' ')
        & places::digits_at(s, 29, 4)
        & places::is_at(s, 33, b'\n')
}

fn position_at(s: &[u8]) -> Option<Position>
    requires { 34 ≤ length s.now }
    ensures { result ≡ decode_position degrees (values (get_or position_line 1 []) 0 s.now) }
{
    let south = s[9] != b'+';
    let west = s[19] != b'+';
    Some(Position::Degrees {
        latitude: record::sign::signed_number(south, places::degrees_at(s, 10)),
        longitude: record::sign::signed_number(west, places::degrees_at(s, 20)),
        altitude: places::number_at(s, 29, 4),
    })
}

fn consistent_at(s: &[u8]) -> bool
    requires { 34 ≤ length s.now }
    ensures { result ≡ position_consistent degrees (values (get_or position_line 1 []) 0 s.now) }
{
    places::sign_agrees(s, 9, b'+', places::degrees_at(s, 10))
        & places::sign_agrees(s, 19, b'+', places::degrees_at(s, 20))
}

/// Reads the line of the position at the head of the bytes.
#[inline(never)]
pub fn read_position(s: &[u8], before: State) -> Option<(usize, State)>
    ensures { result ≡ line_read position_line s.now before }
{
    if has_word(b"position=", b"-", s) {
        return Some((11, before));
    }
    if has_position(s) {
        let position = position_at(s);
        let known = Record {
            position,
            ..before.known
        };
        let place = consistent_at(s);
        return Some((
            34,
            State {
                known,
                place,
                arc: true,
                ..before
            },
        ));
    }
    if minutes::has_position(s) {
        let position = minutes::position_at(s);
        let known = Record {
            position,
            ..before.known
        };
        let place = minutes::consistent_at(s);
        let arc = minutes::arcs_in_range(s);
        return Some((
            28,
            State {
                known,
                place,
                arc,
                ..before
            },
        ));
    }
    None
}

// `+047.3500`
fn put_degrees(out: &mut [u8], at: u32, minus: bool, n: u32)
    ensures { out.new ≡ degrees_stored out.old at minus n }
{
    let k = at as usize;
    places::put_choice(out, k, b"+-", minus);
    spelling::put_digits(out, k + 1, 3, n / 10000);
    spelling::put_byte(out, k + 4, b'.');
    spelling::put_digits(out, k + 5, 4, n % 10000);
}

// `position=+047.3500 +008.0625 0431`
#[tactic(auto, unfolding(places::specs::Stores::stores, forms::specs::Places::layout_width))]
fn put_position(r: Record, out: &mut [u8]) -> usize
    ensures { Laid (get_or position_line 1 []) (encode r) result out.old out.new }
{
    spelling::put_bytes(out, 0, b"position=");
    put_degrees(
        out,
        9,
        fields::is_south(r.position),
        fields::latitude_of(r.position),
    );
    spelling::put_byte(out, 18, b' ');
    put_degrees(
        out,
        19,
        fields::is_west(r.position),
        fields::longitude_of(r.position),
    );
    spelling::put_byte(out, 28, b' ');
    spelling::put_digits(out, 29, 4, fields::altitude_of(r.position));
    spelling::put_byte(out, 33, b'\n');
    34
}

/// Writes the line of the position at the head of the buffer, and answers how many bytes it has.
pub fn write_position(r: Record, out: &mut [u8]) -> usize
    ensures { Laid (get_or position_line (position_choice r.position) []) (encode r) result out.old out.new × (result ≤ 34) }
{
    match r.position {
        None => put_word(b"position=", b"-", out),
        Some(Position::Degrees { .. }) => put_position(r, out),
        Some(Position::Minutes { .. }) => minutes::put_position(r, out),
    }
}
