//! The RACAL string, form 5: `XGUyymmddhhmmss<CR>`.
#![tactic(auto)]

ghost use Rattle.std.specs.Prelude.{◌≡◌, refl};
ghost use Rattle.forms.specs.Form.{Wrote, read_by};
ghost use Rattle.forms.specs.Serial.{racal};

use record::refusal::Refusal;
use record::{Date, Record};
use sized_form::SizedForm;

/// A RACAL string: 16 bytes.
#[derive(Clone, Copy, Debug, PartialEq, Eq)]
struct Racal;

impl SizedForm for Racal {
    ghost form = { λ _. racal };

    ghost SIZE = { 16 };

    const SIZE: usize = 16;

    fn has_shape(&self, s: &[u8]) -> bool {
        places::text_at(s, 0, b"XGU")
            & places::digits_at(s, 3, 2)
            & places::digits_at(s, 5, 2)
            & places::digits_at(s, 7, 2)
            & places::digits_at(s, 9, 2)
            & places::digits_at(s, 11, 2)
            & places::digits_at(s, 13, 2)
            & places::text_at(s, 15, b"\r")
    }

    #[tactic(auto, using(forms::proofs::Tests::no_checksum))]
    fn checksum_holds(&self, _s: &[u8]) -> bool {
        true
    }

    fn decode(&self, s: &[u8]) -> Record {
        Record {
            hour: places::number_at(s, 9, 2),
            minute: places::number_at(s, 11, 2),
            second: places::number_at(s, 13, 2),
            date: Some(Date::Full {
                year: places::number_at(s, 3, 2),
                month: places::number_at(s, 5, 2),
                day: places::number_at(s, 7, 2),
            }),
            ..Record::empty()
        }
    }

    fn is_in_range(&self, _s: &[u8], told: Record) -> bool {
        told.date_time_in_range()
    }

    fn agrees(&self, _s: &[u8], _told: Record) -> bool {
        true
    }

    #[tactic(auto, using(places::proofs::Chain::flat), unfolding(forms::specs::Required::has_carried, forms::specs::Carries::carries_of, forms::specs::Places::has))]
    fn has_carried(&self, told: Record) -> bool {
        fields::has_full_date(told.date)
    }

    #[tactic(auto, using(places::proofs::Wrote::layout_has_words), unfolding(places::proofs::Wrote::always_expressible, places::proofs::Wrote::always_has_words, forms::specs::Places::has))]
    fn is_expressible(&self, _told: Record) -> bool {
        true
    }

    fn store(&self, told: Record, out: &mut [u8]) {
        spelling::put_bytes(out, 0, b"XGU");
        places::put_triple(
            out,
            3,
            fields::year_of(told.date),
            fields::month_of(told.date),
            fields::day_of(told.date),
        );
        places::put_triple(out, 9, told.hour, told.minute, told.second);
        spelling::put_byte(out, 15, b'\r');
    }

    ghost sized = { λ _. refl };
}

pub fn read(s: &[u8]) -> Result<Record, Refusal>
    ensures { result ≡ read_by racal s.now }
{
    sized_form::read(&Racal, s)
}

#[inline(never)]
pub fn write(told: Record, out: &mut [u8]) -> Result<usize, Refusal>
    ensures { Wrote racal told result out.old out.new }
{
    sized_form::write(&Racal, told, out)
}
