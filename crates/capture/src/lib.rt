//! The Capture string, form 2: `CHx dd.mm.yy hh:mm:ss.fffffff<CR><LF>`.
#![tactic(auto)]

ghost use Rattle.std.specs.Prelude.{◌≡◌, refl};
ghost use Rattle.forms.specs.Form.{Wrote, read_by};
ghost use Rattle.forms.specs.Serial.{capture};

use record::range::{channel_in_range, fraction_in_range};
use record::refusal::Refusal;
use record::{Date, Fraction, Record};
use sized_form::SizedForm;

/// What the form supplies for its reader and its writer.
struct Capture;

impl SizedForm for Capture {
    ghost form = { λ _. capture };

    ghost SIZE = { 31 };

    const SIZE: usize = 31;

    fn has_shape(&self, s: &[u8]) -> bool {
        places::text_at(s, 0, b"CH")
            & places::digits_at(s, 2, 1)
            & places::is_at(s, 3, b' ')
            & places::pairs_at(s, 4, b'.')
            & places::is_at(s, 12, b' ')
            & places::pairs_at(s, 13, b':')
            & places::is_at(s, 21, b'.')
            & places::digits_at(s, 22, 7)
            & places::text_at(s, 29, b"\r\n")
    }

    #[tactic(auto, unfolding(forms::specs::Checksum::checksums_hold))]
    fn checksum_holds(&self, _s: &[u8]) -> bool {
        true
    }

    // Any digit decodes to a channel: its range is tested with the record's.
    fn decode(&self, s: &[u8]) -> Record {
        Record {
            hour: places::number_at(s, 13, 2),
            minute: places::number_at(s, 16, 2),
            second: places::number_at(s, 19, 2),
            date: Some(Date::Full {
                year: places::number_at(s, 10, 2),
                month: places::number_at(s, 7, 2),
                day: places::number_at(s, 4, 2),
            }),
            fraction: Some(Fraction::TenMillionths(places::number_at(s, 22, 7))),
            channel: Some(places::number_at(s, 2, 1)),
            ..Record::empty()
        }
    }

    fn is_in_range(&self, _s: &[u8], told: Record) -> bool {
        told.date_time_in_range()
            & (fraction_in_range(told.fraction) & channel_in_range(told.channel))
    }

    fn agrees(&self, _s: &[u8], _told: Record) -> bool {
        true
    }

    // Thousandths do not serve: a fraction is never converted.
    #[tactic(auto, using(places::proofs::Chain::flat), unfolding(forms::specs::Required::has_carried, forms::specs::Carries::carries_of, forms::specs::Places::has))]
    fn has_carried(&self, told: Record) -> bool {
        fields::has_full_date(told.date)
            & fields::has_ten_millionths(told.fraction)
            & fields::has_channel(told.channel)
    }

    #[tactic(auto, using(places::proofs::Wrote::layout_has_words), unfolding(places::proofs::Wrote::always_expressible, places::proofs::Wrote::always_has_words, forms::specs::Places::has))]
    fn is_expressible(&self, _told: Record) -> bool {
        true
    }

    fn store(&self, told: Record, out: &mut [u8]) {
        spelling::put_bytes(out, 0, b"CH");
        spelling::put_digits(out, 2, 1, fields::channel_of(told.channel));
        spelling::put_byte(out, 3, b' ');
        places::put_pairs(
            out,
            4,
            b'.',
            fields::day_of(told.date),
            fields::month_of(told.date),
            fields::year_of(told.date),
        );
        spelling::put_byte(out, 12, b' ');
        places::put_pairs(out, 13, b':', told.hour, told.minute, told.second);
        spelling::put_byte(out, 21, b'.');
        spelling::put_digits(out, 22, 7, fields::ten_millionths_of(told.fraction));
        spelling::put_bytes(out, 29, b"\r\n");
    }

    ghost sized = { λ _. refl };
}

/// The record that a Capture string tells; a channel above 1 is out of range.
pub fn read(s: &[u8]) -> Result<Record, Refusal>
    ensures { result ≡ read_by capture s.now }
{
    sized_form::read(&Capture, s)
}

/// Writes a record's Capture string, 31 bytes, at the head of the buffer, and hands back their number.
#[inline(never)]
pub fn write(told: Record, out: &mut [u8]) -> Result<usize, Refusal>
    ensures { Wrote capture told result out.old out.new }
{
    sized_form::write(&Capture, told, out)
}
