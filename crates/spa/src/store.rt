//! A string stored in two pieces: all that the sum is taken over, and the sum.
ghost use Rattle.std.specs.Prelude.{◌≡◌, take, drop};
ghost use Rattle.forms.specs.Serial.{spa_layout};
ghost use Rattle.forms.specs.Encode.{encode};
ghost use Rattle.places.specs.Stores.{stores};
ghost use Rattle.spa.specs.Stored.{end_stored};

use crate::checksum::checksum_of;
use record::Record;

// `>900WD:yy-mm-dd `
#[tactic(auto, unfolding(places::specs::Stores::stores))]
fn store_date(told: Record, out: &mut [u8])
    ensures { out.new ≡ stores (take 7 spa_layout) 0 (encode told) out.old }
{
    spelling::put_bytes(out, 0, b">900WD:");
    places::put_pairs(
        out,
        7,
        b'-',
        fields::year_of(told.date),
        fields::month_of(told.date),
        fields::day_of(told.date),
    );
    spelling::put_byte(out, 15, b' ');
}

// `hh.mm;ss.fff:`
#[tactic(auto, unfolding(places::specs::Stores::stores))]
fn store_time(told: Record, out: &mut [u8])
    ensures { out.new ≡ stores (drop 7 (take 15 spa_layout)) 16 (encode told) out.old }
{
    spelling::put_digits(out, 16, 2, told.hour);
    spelling::put_byte(out, 18, b'.');
    spelling::put_digits(out, 19, 2, told.minute);
    spelling::put_byte(out, 21, b';');
    spelling::put_digits(out, 22, 2, told.second);
    spelling::put_byte(out, 24, b'.');
    spelling::put_digits(out, 25, 3, fields::thousandths_of(told.fraction));
    spelling::put_byte(out, 28, b':');
}

// All that the sum is taken over.
#[tactic(auto, unfolding(places::specs::Stores::stores))]
pub(crate) fn store_front(told: Record, out: &mut [u8])
    ensures { out.new ≡ stores (take 15 spa_layout) 0 (encode told) out.old }
{
    store_date(told, out);
    store_time(told, out);
}

// `cc<CR>`, behind the bytes that stand there
pub(crate) fn store_end(out: &mut [u8])
    ensures { out.new ≡ end_stored out.old }
{
    let checksum = checksum_of(out);
    spelling::put_hex(out, 29, 2, checksum);
    spelling::put_byte(out, 31, b'\r');
}
