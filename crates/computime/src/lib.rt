//! The Computime string, form 7: `T:yy:mm:dd:ww:hh:mm:ss<CR><LF>`.
#![tactic(auto)]

ghost use Rattle.std.specs.Prelude.{◌≡◌, refl};
ghost use Rattle.forms.specs.Form.{Wrote, read_by};
ghost use Rattle.forms.specs.Serial.{computime};

use record::refusal::Refusal;
use record::{Date, Record};
use sized_form::SizedForm;

/// What the form supplies for its reader and its writer.
struct Computime;

// The string tells its date's weekday besides, 1 to 7.
impl SizedForm for Computime {
    ghost form = { λ _. computime };

    ghost SIZE = { 24 };

    const SIZE: usize = 24;

    fn has_shape(&self, s: &[u8]) -> bool {
        places::text_at(s, 0, b"T:")
            & places::pairs_at(s, 2, b':')
            & places::is_at(s, 10, b':')
            & places::digits_at(s, 11, 2)
            & places::is_at(s, 13, b':')
            & places::pairs_at(s, 14, b':')
            & places::text_at(s, 22, b"\r\n")
    }

    #[tactic(auto, unfolding(forms::specs::Checksum::checksums_hold))]
    fn checksum_holds(&self, _s: &[u8]) -> bool {
        true
    }

    fn decode(&self, s: &[u8]) -> Record {
        Record {
            hour: places::number_at(s, 14, 2),
            minute: places::number_at(s, 17, 2),
            second: places::number_at(s, 20, 2),
            date: Some(Date::Full {
                year: places::number_at(s, 2, 2),
                month: places::number_at(s, 5, 2),
                day: places::number_at(s, 8, 2),
            }),
            ..Record::empty()
        }
    }

    fn is_in_range(&self, s: &[u8], told: Record) -> bool {
        told.date_time_in_range() & places::is_weekday(places::number_at(s, 11, 2))
    }

    fn agrees(&self, s: &[u8], told: Record) -> bool {
        places::falls_on(told.date, places::number_at(s, 11, 2))
    }

    #[tactic(auto, using(places::proofs::Chain::flat), unfolding(forms::specs::Required::has_carried, forms::specs::Carries::carries_of, forms::specs::Places::has))]
    fn has_carried(&self, told: Record) -> bool {
        fields::has_full_date(told.date)
    }

    #[tactic(auto, using(places::proofs::Wrote::layout_has_words), unfolding(places::proofs::Wrote::always_expressible, places::proofs::Wrote::always_has_words, forms::specs::Places::has))]
    fn is_expressible(&self, _told: Record) -> bool {
        true
    }

    fn store(&self, told: Record, out: &mut [u8]) {
        spelling::put_bytes(out, 0, b"T:");
        places::put_pairs(
            out,
            2,
            b':',
            fields::year_of(told.date),
            fields::month_of(told.date),
            fields::day_of(told.date),
        );
        spelling::put_byte(out, 10, b':');
        spelling::put_digits(out, 11, 2, places::weekday_of(told.date));
        spelling::put_byte(out, 13, b':');
        places::put_pairs(out, 14, b':', told.hour, told.minute, told.second);
        spelling::put_bytes(out, 22, b"\r\n");
    }

    ghost sized = { λ _. refl };
}

/// The record that a Computime string tells.
pub fn read(s: &[u8]) -> Result<Record, Refusal>
    ensures { result ≡ read_by computime s.now }
{
    sized_form::read(&Computime, s)
}

/// Writes a record's Computime string, 24 bytes, at the head of the buffer, and hands back their number.
#[inline(never)]
pub fn write(told: Record, out: &mut [u8]) -> Result<usize, Refusal>
    ensures { Wrote computime told result out.old out.new }
{
    sized_form::write(&Computime, told, out)
}
