//! The NMEA RMC string, form 12: `$GPRMC,hhmmss.ss,A,bbbb.bb,n,lllll.ll,e,0.0,0.0,ddmmyy,0.0,E*hh<CR><LF>`.
#![tactic(auto)]

ghost use Rattle.std.specs.Prelude.{◌≡◌, refl};
ghost use Rattle.forms.specs.Form.{Wrote, read_by};
ghost use Rattle.forms.specs.Serial.{rmc};

use record::range::{fraction_in_range, position_in_range};
use record::refusal::Refusal;
use record::{Date, Fraction, Record};
use sized_form::SizedForm;

mod angles;
mod checksum;
mod shape;
mod store;

/// An RMC string: 65 bytes.
#[derive(Clone, Copy, Debug, PartialEq, Eq)]
struct Rmc;

impl SizedForm for Rmc {
    ghost form = { λ _. rmc };

    ghost SIZE = { 65 };

    const SIZE: usize = 65;

    fn has_shape(&self, s: &[u8]) -> bool {
        shape::is_time(s)
            & shape::is_latitude(s)
            & shape::is_longitude(s)
            & shape::is_date(s)
            & places::hex_at(s, 61, 2)
            & places::text_at(s, 63, b"\r\n")
    }

    fn checksum_holds(&self, s: &[u8]) -> bool {
        places::hex_number_at(s, 61, 2) == checksum::checksum_of(s)
    }

    fn decode(&self, s: &[u8]) -> Record {
        Record {
            hour: places::number_at(s, 7, 2),
            minute: places::number_at(s, 9, 2),
            second: places::number_at(s, 11, 2),
            date: Some(Date::Full {
                year: places::number_at(s, 52, 2),
                month: places::number_at(s, 50, 2),
                day: places::number_at(s, 48, 2),
            }),
            fraction: Some(Fraction::Hundredths(places::number_at(s, 14, 2))),
            sync: places::flag_at(s, 17, b'V'),
            position: angles::position_at(s),
            ..Record::empty()
        }
    }

    fn is_in_range(&self, s: &[u8], told: Record) -> bool {
        told.date_time_in_range()
            & (fraction_in_range(told.fraction) & position_in_range(told.position))
            & angles::arcs_in_range(s)
    }

    fn agrees(&self, s: &[u8], _told: Record) -> bool {
        angles::signs_agree(s)
    }

    // Thousandths and a position in degrees do not serve: no kind is turned into another.
    #[tactic(auto, using(places::proofs::Chain::flat), unfolding(forms::specs::Required::has_carried, forms::specs::Carries::carries_of, forms::specs::Places::has))]
    fn has_carried(&self, told: Record) -> bool {
        fields::has_full_date(told.date)
            & fields::has_hundredths(told.fraction)
            & fields::has_flag(told.sync)
            & fields::has_minutes(told.position)
    }

    // Every letter has a word for the record's value.
    fn is_expressible(&self, _told: Record) -> bool {
        true
    }

    fn store(&self, told: Record, out: &mut [u8]) {
        store::store_front(told, out);
        store::store_end(out);
    }

    ghost sized = { λ _. refl };
}

/// The record that the string tells: refusals 2, 3, 6, 4 and 5.
pub fn read(s: &[u8]) -> Result<Record, Refusal>
    ensures { result ≡ read_by rmc s.now }
{
    sized_form::read(&Rmc, s)
}

/// Writes the record's string at the head of the buffer, and hands back its 65 bytes' number: refusals 7, 8 and 10. A refused write
/// changes no byte.
#[inline(never)]
pub fn write(told: Record, out: &mut [u8]) -> Result<usize, Refusal>
    ensures { Wrote rmc told result out.old out.new }
{
    sized_form::write(&Rmc, told, out)
}
