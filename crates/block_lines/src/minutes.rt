// The value of the position's line in minutes: `position=+4721.00 +00803.75`.
ghost use Rattle.std.specs.Prelude.{◌≡◌, [], ◌≤◌, length, get_or};
ghost use Rattle.forms.specs.Block.{position_line};
ghost use Rattle.forms.specs.Encode.{encode};
ghost use Rattle.forms.specs.Fields.Position.{arc_in_range, decode_latitude, decode_longitude, decode_position, minutes, position_consistent};
ghost use Rattle.forms.specs.Places.{shape, values};
ghost use Rattle.block_lines.specs.Reading.{minutes_at};
ghost use Rattle.block_lines.specs.Stores.{Laid, minutes_stored};

use record::{Position, Record};

// `+00803.75`: degrees of so many digits, and minutes. The numbers are of 16 bits, so that their sum fits.
fn has_minutes(s: &[u8], at: u16, width: u16) -> bool
    ensures { result ≡ minutes_at s.now at width }
{
    let k = at as usize;
    let w = width as usize;
    places::letter_at(s, k, b"+-")
        & places::digits_at(s, k + 1, w)
        & places::is_arc(s, at as u32 + 1 + width as u32)
}

pub(crate) fn has_position(s: &[u8]) -> bool
    ensures { result ≡ shape (get_or position_line 2 []) 0 s.now }
{
    places::text_at(s, 0, b"position=")
        & has_minutes(s, 9, 2)
        & places::is_at(s, 17, b' ')
        & has_minutes(s, 18, 3)
        & places::is_at(s, 27, b'\n')
}

// `4721.00`
#[tactic(auto, unfolding(forms::specs::Places::values, spelling::specs::Spelling::value_of))]
fn latitude_at(s: &[u8]) -> u32
    ensures { (result ≡ decode_latitude minutes (values (get_or position_line 2 []) 0 s.now)) × (result ≤ 2147483647) }
{
    places::number_at(s, 10, 2) * 6000 + places::arc_at(s, 12)
}

// `00803.75`
#[tactic(auto, unfolding(forms::specs::Places::values, spelling::specs::Spelling::value_of))]
fn longitude_at(s: &[u8]) -> u32
    ensures { (result ≡ decode_longitude minutes (values (get_or position_line 2 []) 0 s.now)) × (result ≤ 2147483647) }
{
    places::number_at(s, 19, 3) * 6000 + places::arc_at(s, 22)
}

pub(crate) fn position_at(s: &[u8]) -> Option<Position>
    requires { 28 ≤ length s.now }
    ensures { result ≡ decode_position minutes (values (get_or position_line 2 []) 0 s.now) }
{
    let south = places::byte_at(s, 9) != b'+';
    let west = places::byte_at(s, 18) != b'+';
    Some(Position::Minutes {
        latitude: record::sign::signed_number(south, latitude_at(s)),
        longitude: record::sign::signed_number(west, longitude_at(s)),
    })
}

pub(crate) fn consistent_at(s: &[u8]) -> bool
    requires { 28 ≤ length s.now }
    ensures { result ≡ position_consistent minutes (values (get_or position_line 2 []) 0 s.now) }
{
    places::sign_agrees(s, 9, b'+', latitude_at(s))
        & places::sign_agrees(s, 18, b'+', longitude_at(s))
}

#[tactic(auto, unfolding(forms::specs::Places::values))]
pub(crate) fn arcs_in_range(s: &[u8]) -> bool
    ensures { result ≡ arc_in_range (values (get_or position_line 2 []) 0 s.now) }
{
    (places::number_at(s, 12, 2) < 60) & (places::number_at(s, 22, 2) < 60)
}

// `+00803.75`
fn put_minutes(out: &mut [u8], at: u16, width: u16, minus: bool, hundredths: u32)
    ensures { out.new ≡ minutes_stored out.old at width minus hundredths }
{
    let k = at as usize;
    let w = width as usize;
    places::put_choice(out, k, b"+-", minus);
    spelling::put_digits(out, k + 1, w, hundredths / 6000);
    places::put_arc(out, at as u32 + 1 + width as u32, hundredths);
}

#[tactic(auto, unfolding(places::specs::Stores::stores, forms::specs::Places::layout_width))]
pub(crate) fn put_position(r: Record, out: &mut [u8]) -> usize
    ensures { Laid (get_or position_line 2 []) (encode r) result out.old out.new }
{
    spelling::put_bytes(out, 0, b"position=");
    put_minutes(
        out,
        9,
        2,
        fields::is_south(r.position),
        fields::latitude_in_minutes(r.position),
    );
    spelling::put_byte(out, 17, b' ');
    put_minutes(
        out,
        18,
        3,
        fields::is_west(r.position),
        fields::longitude_in_minutes(r.position),
    );
    spelling::put_byte(out, 27, b'\n');
    28
}
