//! The string stored, piece by piece.
#![tactic(auto, unfolding(places::specs::Stores::stores))]

ghost use Rattle.std.specs.Prelude.{◌≡◌, take, drop};
ghost use Rattle.forms.specs.Encode.{encode};
ghost use Rattle.places.specs.Stores.{stores};
ghost use Rattle.places.specs.Weekday.{encode_weekday};
ghost use Rattle.erlangen.specs.Degrees.{degrees_stored};
ghost use Rattle.erlangen.specs.Layouts.{altitude_layout, date_layout, flags_layout, latitude_layout, leap_layout, longitude_layout, offset_layout, position_layout, time_layout};

use record::Record;

// `<STX>dd.mm.yy; w; `
pub(crate) fn store_date(told: Record, weekday: u32, out: &mut [u8])
    requires { weekday ≡ encode_weekday told.date }
    ensures { out.new ≡ stores date_layout 0 (encode told) out.old }
{
    spelling::put_byte(out, 0, 2);
    places::put_pairs(
        out,
        1,
        b'.',
        fields::day_of(told.date),
        fields::month_of(told.date),
        fields::year_of(told.date),
    );
    spelling::put_bytes(out, 9, b"; ");
    spelling::put_digits(out, 11, 1, weekday);
    spelling::put_bytes(out, 12, b"; ");
}

// `hh:mm:ss; `
pub(crate) fn store_time(told: Record, out: &mut [u8])
    ensures { out.new ≡ stores time_layout 14 (encode told) out.old }
{
    places::put_pairs(out, 14, b':', told.hour, told.minute, told.second);
    spelling::put_bytes(out, 22, b"; ");
}

// `voo:oo; `
pub(crate) fn store_offset(told: Record, out: &mut [u8])
    ensures { out.new ≡ stores offset_layout 24 (encode told) out.old }
{
    let minutes = fields::minutes_of(told.offset);
    places::put_choice(out, 24, b"+-", fields::is_minus(told.offset));
    spelling::put_digits(out, 25, 2, minutes / 60);
    spelling::put_byte(out, 27, b':');
    spelling::put_digits(out, 28, 2, minutes % 60);
    spelling::put_bytes(out, 30, b"; ");
}

// `ac`: sync, fix.
pub(crate) fn store_state(told: Record, out: &mut [u8])
    ensures { out.new ≡ stores (take 2 flags_layout) 32 (encode told) out.old }
{
    places::put_flag(out, 32, b"# ", told.sync);
    places::put_flag(out, 33, b"* ", told.fix);
}

// `dfg`: summer, change, leap.
pub(crate) fn store_zone(told: Record, out: &mut [u8])
    ensures { out.new ≡ stores (drop 2 flags_layout) 34 (encode told) out.old }
{
    places::put_flag(out, 34, b" S", told.summer);
    places::put_flag(out, 35, b" !", told.change);
    places::put_flag(out, 36, b" A", told.leap);
}

// ` i;`
pub(crate) fn store_leap_second(told: Record, out: &mut [u8])
    ensures { out.new ≡ stores leap_layout 37 (encode told) out.old }
{
    spelling::put_byte(out, 37, b' ');
    places::put_choice(out, 38, b" L", told.second == 60);
    spelling::put_byte(out, 39, b';');
}

// Padded degrees, a point, four digits and one of two letters.
fn put_degrees(out: &mut [u8], at: u32, choices: &[u8], chosen: bool, n: u32)
    ensures { out.new ≡ degrees_stored out.old at choices.now chosen n }
{
    let k = at as usize;
    spelling::put_padded(out, k, 3, n / 10000);
    spelling::put_byte(out, k + 3, b'.');
    spelling::put_digits(out, k + 4, 4, n % 10000);
    places::put_choice(out, k + 8, choices, chosen);
}

// `bbb.bbbbn `
fn store_latitude(told: Record, out: &mut [u8])
    ensures { out.new ≡ stores latitude_layout 40 (encode told) out.old }
{
    let south = fields::is_south(told.position);
    let latitude = fields::latitude_of(told.position);
    put_degrees(out, 40, b"NS", south, latitude);
    spelling::put_byte(out, 49, b' ');
}

// `lll.lllle `
fn store_longitude(told: Record, out: &mut [u8])
    ensures { out.new ≡ stores longitude_layout 50 (encode told) out.old }
{
    let west = fields::is_west(told.position);
    let longitude = fields::longitude_of(told.position);
    put_degrees(out, 50, b"EW", west, longitude);
    spelling::put_byte(out, 59, b' ');
}

// `hhhhm<ETX>`
fn store_altitude(told: Record, out: &mut [u8])
    ensures { out.new ≡ stores altitude_layout 60 (encode told) out.old }
{
    let altitude = fields::altitude_of(told.position);
    spelling::put_padded(out, 60, 4, altitude);
    spelling::put_bytes(out, 64, b"m\x03");
}

pub(crate) fn store_position(told: Record, out: &mut [u8])
    ensures { out.new ≡ stores position_layout 40 (encode told) out.old }
{
    store_latitude(told, out);
    store_longitude(told, out);
    store_altitude(told, out);
}
