//! The ABB SPA string, form 4: `>900WD:yy-mm-dd hh.mm;ss.fff:cc<CR>`.
#![tactic(auto)]

mod checksum;
mod store;

ghost use Rattle.std.specs.Prelude.{◌≡◌, refl};
ghost use Rattle.forms.specs.Form.{Wrote, read_by};
ghost use Rattle.forms.specs.Serial.{spa};

use crate::checksum::checksum_of;
use crate::store::{store_end, store_front};
use record::range::fraction_in_range;
use record::refusal::Refusal;
use record::{Date, Fraction, Record};
use sized_form::SizedForm;

/// An ABB SPA string: 32 bytes.
#[derive(Clone, Copy, Debug, PartialEq, Eq)]
struct Spa;

impl SizedForm for Spa {
    ghost form = { λ _. spa };

    ghost SIZE = { 32 };

    const SIZE: usize = 32;

    fn has_shape(&self, s: &[u8]) -> bool {
        places::text_at(s, 0, b">900WD:")
            & places::pairs_at(s, 7, b'-')
            & places::is_at(s, 15, b' ')
            & places::digits_at(s, 16, 2)
            & places::is_at(s, 18, b'.')
            & places::digits_at(s, 19, 2)
            & places::is_at(s, 21, b';')
            & places::digits_at(s, 22, 2)
            & places::is_at(s, 24, b'.')
            & places::digits_at(s, 25, 3)
            & places::is_at(s, 28, b':')
            & places::hex_at(s, 29, 2)
            & places::is_at(s, 31, b'\r')
    }

    #[tactic(auto, unfolding(forms::specs::Checksum::checksums_hold, forms::specs::Places::values))]
    fn checksum_holds(&self, s: &[u8]) -> bool {
        places::hex_number_at(s, 29, 2) == checksum_of(s)
    }

    fn decode(&self, s: &[u8]) -> Record {
        Record {
            hour: places::number_at(s, 16, 2),
            minute: places::number_at(s, 19, 2),
            second: places::number_at(s, 22, 2),
            date: Some(Date::Full {
                year: places::number_at(s, 7, 2),
                month: places::number_at(s, 10, 2),
                day: places::number_at(s, 13, 2),
            }),
            fraction: Some(Fraction::Thousandths(places::number_at(s, 25, 3))),
            ..Record::empty()
        }
    }

    fn is_in_range(&self, _s: &[u8], told: Record) -> bool {
        told.date_time_in_range() & fraction_in_range(told.fraction)
    }

    fn agrees(&self, _s: &[u8], _told: Record) -> bool {
        true
    }

    // Ten-millionths do not serve: a fraction is never converted.
    fn has_carried(&self, told: Record) -> bool {
        fields::has_full_date(told.date) & fields::has_thousandths(told.fraction)
    }

    fn is_expressible(&self, _told: Record) -> bool {
        true
    }

    fn store(&self, told: Record, out: &mut [u8]) {
        store_front(told, out);
        store_end(out);
    }

    ghost sized = { λ _. refl };
}

/// The record that an SPA string tells: refusals 2, 3, 6 and 4, so that the sum is tested before any number is.
pub fn read(s: &[u8]) -> Result<Record, Refusal>
    ensures { result ≡ read_by spa s.now }
{
    sized_form::read(&Spa, s)
}

/// Writes 32 bytes at the head of the buffer: refusals 7, 8 and 10. A refused write changes no byte.
#[inline(never)]
pub fn write(told: Record, out: &mut [u8]) -> Result<usize, Refusal>
    ensures { Wrote spa told result out.old out.new }
{
    sized_form::write(&Spa, told, out)
}
