//! The SAT string, form 10: `<STX>dd.mm.yy/w/hh:mm:ssxxxxuv<CR><LF><ETX>`.
#![tactic(auto)]

ghost use Rattle.std.specs.Prelude.{◌≡◌, drop, length, refl, take};
ghost use Rattle.forms.specs.Form.{Wrote, read_by};
ghost use Rattle.forms.specs.Serial.{sat, sat_layout};
ghost use Rattle.forms.specs.Encode.{encode};
ghost use Rattle.places.specs.Admitted.{Storable};
ghost use Rattle.places.specs.Stores.{stores};
ghost use Rattle.places.specs.Weekday.{encode_weekday};

use record::range::is_yes;
use record::refusal::Refusal;
use record::{Date, Record};
use sized_form::SizedForm;

/// A SAT string: 29 bytes.
#[derive(Clone, Copy, Debug, PartialEq, Eq)]
struct Sat;

impl SizedForm for Sat {
    ghost form = { λ _. sat };

    ghost SIZE = { 29 };

    const SIZE: usize = 29;

    fn has_shape(&self, s: &[u8]) -> bool {
        places::is_at(s, 0, 2)
            & places::pairs_at(s, 1, b'.')
            & places::is_at(s, 9, b'/')
            & places::digits_at(s, 10, 1)
            & places::is_at(s, 11, b'/')
            & places::pairs_at(s, 12, b':')
            & (places::text_at(s, 20, b"CET ")
                | places::text_at(s, 20, b"CEST")
                | places::text_at(s, 20, b"UTC "))
            & places::letter_at(s, 24, b"# ")
            & places::letter_at(s, 25, b" !")
            & places::text_at(s, 26, b"\r\n\x03")
    }

    #[tactic(auto, using(forms::proofs::Tests::no_checksum))]
    fn checksum_holds(&self, _s: &[u8]) -> bool {
        true
    }

    // The zone tells utc and summer; a fix and a leap second have no place.
    fn decode(&self, s: &[u8]) -> Record {
        Record {
            hour: places::number_at(s, 12, 2),
            minute: places::number_at(s, 15, 2),
            second: places::number_at(s, 18, 2),
            date: Some(Date::Full {
                year: places::number_at(s, 7, 2),
                month: places::number_at(s, 4, 2),
                day: places::number_at(s, 1, 2),
            }),
            sync: places::flag_at(s, 24, b'#'),
            utc: places::word_at(s, 20, b"UTC "),
            summer: places::word_at(s, 20, b"CEST"),
            change: places::flag_at(s, 25, b' '),
            ..Record::empty()
        }
    }

    fn is_in_range(&self, s: &[u8], told: Record) -> bool {
        told.date_time_in_range() & places::is_weekday(places::number_at(s, 10, 1))
    }

    fn agrees(&self, s: &[u8], told: Record) -> bool {
        places::falls_on(told.date, places::number_at(s, 10, 1))
    }

    fn has_carried(&self, told: Record) -> bool {
        fields::has_full_date(told.date)
            & fields::has_flag(told.sync)
            & fields::has_flag(told.utc)
            & fields::has_flag(told.summer)
            & fields::has_flag(told.change)
    }

    // A good record is not utc and summer both, so that there is a zone for each.
    fn is_expressible(&self, _told: Record) -> bool {
        true
    }

    fn store(&self, told: Record, out: &mut [u8]) {
        store_time(told, places::weekday_of(told.date), out);
        store_zone(told, out);
        places::put_flag(out, 24, b"# ", told.sync);
        places::put_flag(out, 25, b" !", told.change);
        spelling::put_bytes(out, 26, b"\r\n\x03");
    }

    ghost sized = { λ _. refl };
}

// `<STX>dd.mm.yy/w/hh:mm:ss`
#[tactic(auto, unfolding(places::specs::Stores::stores))]
fn store_time(told: Record, weekday: u32, out: &mut [u8])
    requires { weekday ≡ encode_weekday told.date }
    ensures { out.new ≡ stores (take 14 sat_layout) 0 (encode told) out.old }
{
    spelling::put_byte(out, 0, 2);
    places::put_pairs(
        out,
        1,
        b'.',
        fields::day_of(told.date),
        fields::month_of(told.date),
        fields::year_of(told.date),
    );
    spelling::put_byte(out, 9, b'/');
    spelling::put_digits(out, 10, 1, weekday);
    spelling::put_byte(out, 11, b'/');
    places::put_pairs(out, 12, b':', told.hour, told.minute, told.second);
}

// `xxxx`; there is no word for utc and summer both.
fn store_zone(told: Record, out: &mut [u8])
    requires { Storable sat told (length out.old) }
    ensures { out.new ≡ stores (take 1 (drop 14 sat_layout)) 20 (encode told) out.old }
{
    if is_yes(told.utc) {
        spelling::put_bytes(out, 20, b"UTC ");
    } else if is_yes(told.summer) {
        spelling::put_bytes(out, 20, b"CEST");
    } else {
        spelling::put_bytes(out, 20, b"CET ");
    }
}

/// The record that a SAT string tells: refusals 2, 3, 4 and 5.
pub fn read(s: &[u8]) -> Result<Record, Refusal>
    ensures { result ≡ read_by sat s.now }
{
    sized_form::read(&Sat, s)
}

/// Writes 29 bytes at the head of the buffer: refusals 7, 8 and 10. A refused write changes no byte.
#[inline(never)]
pub fn write(told: Record, out: &mut [u8]) -> Result<usize, Refusal>
    ensures { Wrote sat told result out.old out.new }
{
    sized_form::write(&Sat, told, out)
}
