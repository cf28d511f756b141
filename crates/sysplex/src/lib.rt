//! The SYSPLEX-1 string, form 6: `<SOH>ddd:hh:mm:ssq<CR><LF>`.
#![tactic(auto)]

ghost use Rattle.std.specs.Prelude.{◌≡◌, refl};
ghost use Rattle.forms.specs.Form.{Wrote, read_by};
ghost use Rattle.forms.specs.Serial.{sysplex};

use record::refusal::Refusal;
use record::{Date, Record};
use sized_form::SizedForm;

/// What the form supplies for its reader and its writer.
struct Sysplex;

impl SizedForm for Sysplex {
    ghost form = { λ _. sysplex };

    ghost SIZE = { 16 };

    const SIZE: usize = 16;

    fn has_shape(&self, s: &[u8]) -> bool {
        places::is_at(s, 0, 1)
            & places::digits_at(s, 1, 3)
            & places::is_at(s, 4, b':')
            & places::pairs_at(s, 5, b':')
            & places::letter_at(s, 13, b"? ")
            & places::text_at(s, 14, b"\r\n")
    }

    #[tactic(auto, unfolding(forms::specs::Checksum::checksums_hold))]
    fn checksum_holds(&self, _s: &[u8]) -> bool {
        true
    }

    // The day stays a day of year: the string tells no year.
    fn decode(&self, s: &[u8]) -> Record {
        Record {
            hour: places::number_at(s, 5, 2),
            minute: places::number_at(s, 8, 2),
            second: places::number_at(s, 11, 2),
            date: Some(Date::DayOfYear(places::number_at(s, 1, 3))),
            sync: places::flag_at(s, 13, b'?'),
            ..Record::empty()
        }
    }

    fn is_in_range(&self, _s: &[u8], told: Record) -> bool {
        told.date_time_in_range()
    }

    fn agrees(&self, _s: &[u8], _told: Record) -> bool {
        true
    }

    // A full date serves as well as a day of year.
    #[tactic(auto, using(places::proofs::Chain::flat), unfolding(forms::specs::Required::has_carried, forms::specs::Carries::carries_of, forms::specs::Places::has))]
    fn has_carried(&self, told: Record) -> bool {
        fields::has_day_of_year(told.date) & fields::has_flag(told.sync)
    }

    #[tactic(auto, using(places::proofs::Wrote::layout_has_words), unfolding(places::proofs::Wrote::always_expressible, places::proofs::Wrote::always_has_words, forms::specs::Places::has, spelling::specs::Bytes::letters, forms::proofs::Limits::bound))]
    fn is_expressible(&self, _told: Record) -> bool {
        true
    }

    // Of a full date the day of its year is stored.
    fn store(&self, told: Record, out: &mut [u8]) {
        spelling::put_byte(out, 0, 1);
        spelling::put_digits(out, 1, 3, fields::ordinal_of(told.date));
        spelling::put_byte(out, 4, b':');
        places::put_pairs(out, 5, b':', told.hour, told.minute, told.second);
        places::put_flag(out, 13, b"? ", told.sync);
        spelling::put_bytes(out, 14, b"\r\n");
    }

    ghost sized = { λ _. refl };
}

/// The record that a SYSPLEX-1 string tells; its date is a day of year.
pub fn read(s: &[u8]) -> Result<Record, Refusal>
    ensures { result ≡ read_by sysplex s.now }
{
    sized_form::read(&Sysplex, s)
}

/// Writes a record's SYSPLEX-1 string, 16 bytes, at the head of the buffer, and hands back their number.
#[inline(never)]
pub fn write(told: Record, out: &mut [u8]) -> Result<usize, Refusal>
    ensures { Wrote sysplex told result out.old out.new }
{
    sized_form::write(&Sysplex, told, out)
}
