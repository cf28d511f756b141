//! The string stored: the bytes in front of its sum piece by piece, and the sum behind them.
#![tactic(auto, unfolding(places::specs::Stores::stores))]

ghost use Rattle.std.specs.Prelude.{◌≡◌};
ghost use Rattle.forms.specs.Encode.{encode};
ghost use Rattle.places.specs.Stores.{stores};
ghost use Rattle.rmc.specs.Layouts.{date_layout, front_layout, latitude_layout, longitude_layout, time_layout};
ghost use Rattle.rmc.specs.Stored.{end_stored};

use crate::checksum::checksum_of;
use record::Record;

// `$GPRMC,hhmmss.ss,A,`
fn store_time(told: Record, out: &mut [u8])
    ensures { out.new ≡ stores time_layout 0 (encode told) out.old }
{
    spelling::put_bytes(out, 0, b"$GPRMC,");
    places::put_triple(out, 7, told.hour, told.minute, told.second);
    spelling::put_byte(out, 13, b'.');
    spelling::put_digits(out, 14, 2, fields::hundredths_of(told.fraction));
    spelling::put_byte(out, 16, b',');
    places::put_flag(out, 17, b"VA", told.sync);
    spelling::put_byte(out, 18, b',');
}

// `bbbb.bb,n,`
fn store_latitude(told: Record, out: &mut [u8])
    ensures { out.new ≡ stores latitude_layout 19 (encode told) out.old }
{
    let latitude = fields::latitude_in_minutes(told.position);
    spelling::put_digits(out, 19, 2, latitude / 6000);
    places::put_arc(out, 21, latitude);
    spelling::put_byte(out, 26, b',');
    places::put_choice(out, 27, b"NS", fields::is_south(told.position));
    spelling::put_byte(out, 28, b',');
}

// `lllll.ll,e`
fn store_longitude(told: Record, out: &mut [u8])
    ensures { out.new ≡ stores longitude_layout 29 (encode told) out.old }
{
    let longitude = fields::longitude_in_minutes(told.position);
    spelling::put_digits(out, 29, 3, longitude / 6000);
    places::put_arc(out, 32, longitude);
    spelling::put_byte(out, 37, b',');
    places::put_choice(out, 38, b"EW", fields::is_west(told.position));
}

// `,0.0,0.0,ddmmyy,0.0,E*`
fn store_date(told: Record, out: &mut [u8])
    ensures { out.new ≡ stores date_layout 39 (encode told) out.old }
{
    spelling::put_bytes(out, 39, b",0.0,0.0,");
    places::put_triple(
        out,
        48,
        fields::day_of(told.date),
        fields::month_of(told.date),
        fields::year_of(told.date),
    );
    spelling::put_bytes(out, 54, b",0.0,E*");
}

// All that stands in front of the sum.
pub(crate) fn store_front(told: Record, out: &mut [u8])
    ensures { out.new ≡ stores front_layout 0 (encode told) out.old }
{
    store_time(told, out);
    store_latitude(told, out);
    store_longitude(told, out);
    store_date(told, out);
}

// `hh<CR><LF>`, behind the bytes that stand there
pub(crate) fn store_end(out: &mut [u8])
    ensures { out.new ≡ end_stored out.old }
{
    let checksum = checksum_of(out);
    spelling::put_hex(out, 61, 2, checksum);
    spelling::put_bytes(out, 63, b"\r\n");
}
