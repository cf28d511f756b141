//! Latitude and longitude: their numbers of hundredths of a minute, their minutes alone, and their signs.
ghost use Rattle.std.specs.Prelude.{◌≡◌, ◌≤◌, length};
ghost use Rattle.forms.specs.Fields.Position.{arc_in_range, decode_latitude, decode_longitude, decode_position, minutes, position_consistent};
ghost use Rattle.forms.specs.Form.{values_by};
ghost use Rattle.forms.specs.Serial.{rmc};

use record::Position;

// `bbbb.bb`
fn latitude_at(s: &[u8]) -> u32
    ensures { (result ≡ decode_latitude minutes (values_by rmc s.now)) × (result ≤ 2147483647) }
{
    places::number_at(s, 19, 2) * 6000 + places::arc_at(s, 21)
}

// `lllll.ll`
fn longitude_at(s: &[u8]) -> u32
    ensures { (result ≡ decode_longitude minutes (values_by rmc s.now)) × (result ≤ 2147483647) }
{
    places::number_at(s, 29, 3) * 6000 + places::arc_at(s, 32)
}

// North and east are positive.
pub(crate) fn position_at(s: &[u8]) -> Option<Position>
    requires { length s.now ≡ 65 }
    ensures { result ≡ decode_position minutes (values_by rmc s.now) }
{
    let south = places::byte_at(s, 27) != b'N';
    let west = places::byte_at(s, 38) != b'E';
    Some(Position::Minutes {
        latitude: record::sign::signed_number(south, latitude_at(s)),
        longitude: record::sign::signed_number(west, longitude_at(s)),
    })
}

// 8960.00 would be 90 degrees, which the range of the whole number lets pass.
pub(crate) fn arcs_in_range(s: &[u8]) -> bool
    ensures { result ≡ arc_in_range (values_by rmc s.now) }
{
    (places::number_at(s, 21, 2) < 60) & (places::number_at(s, 32, 2) < 60)
}

// No S or W stands on a zero.
pub(crate) fn signs_agree(s: &[u8]) -> bool
    requires { length s.now ≡ 65 }
    ensures { result ≡ position_consistent minutes (values_by rmc s.now) }
{
    places::sign_agrees(s, 27, b'N', latitude_at(s))
        & places::sign_agrees(s, 38, b'E', longitude_at(s))
}
