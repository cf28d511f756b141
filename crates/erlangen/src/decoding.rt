//! The date, the offset and the position that the string tells.
ghost use Rattle.std.specs.Prelude.{◌≡◌, true, length};
ghost use Rattle.forms.specs.Fields.Date.{decode_date, full_date};
ghost use Rattle.forms.specs.Fields.Offset.{in_minutes, decode_minutes, decode_offset};
ghost use Rattle.forms.specs.Fields.Position.{decode_position, degrees};
ghost use Rattle.forms.specs.Form.{values_by};
ghost use Rattle.forms.specs.Serial.{erlangen};
ghost use Rattle.forms.specs.Slots.{minus};

use record::{Date, Position};

#[tactic(auto, unfolding(forms::specs::Places::values, forms::specs::Fields::Date::decode_date))]
pub(crate) fn date_at(s: &[u8]) -> Option<Date>
    ensures { result ≡ decode_date full_date (values_by erlangen s.now) }
{
    Some(Date::Full {
        year: places::number_at(s, 7, 2),
        month: places::number_at(s, 4, 2),
        day: places::number_at(s, 1, 2),
    })
}

// Minutes with their sign.
pub(crate) fn offset_at(s: &[u8]) -> Option<i32>
    requires { length s.now ≡ 66 }
    ensures { result ≡ decode_offset true (values_by erlangen s.now minus) (decode_minutes in_minutes (values_by erlangen s.now)) }
{
    let behind = places::byte_at(s, 24) != b'+';
    Some(record::sign::signed_number(behind, places::minutes_at(s, 25)))
}

// North and east are positive.
pub(crate) fn position_at(s: &[u8]) -> Option<Position>
    requires { length s.now ≡ 66 }
    ensures { result ≡ decode_position degrees (values_by erlangen s.now) }
{
    let south = places::byte_at(s, 48) != b'N';
    let west = places::byte_at(s, 58) != b'E';
    Some(Position::Degrees {
        latitude: record::sign::signed_number(south, places::degrees_at(s, 40)),
        longitude: record::sign::signed_number(west, places::degrees_at(s, 50)),
        altitude: places::number_at(s, 60, 4),
    })
}
