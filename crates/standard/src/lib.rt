//! The Standard string, form 1: `<STX>D:dd.mm.yy;T:w;U:hh.mm.ss;uvxy<ETX>`.
#![tactic(auto)]

ghost use Rattle.std.specs.Prelude.{◌≡◌, refl, take, drop};
ghost use Rattle.forms.specs.Form.{Wrote, read_by};
ghost use Rattle.forms.specs.Places.{shape};
ghost use Rattle.forms.specs.Serial.{standard, standard_layout};
ghost use Rattle.forms.specs.Encode.{encode};
ghost use Rattle.places.specs.Stores.{stores};
ghost use Rattle.places.specs.Weekday.{encode_weekday};

use record::range::is_yes;
use record::refusal::Refusal;
use record::{Date, Record};
use sized_form::SizedForm;

/// A Meinberg Standard string: 32 bytes.
#[derive(Clone, Copy, Debug, PartialEq, Eq)]
struct Standard;

impl SizedForm for Standard {
    ghost form = { λ _. standard };

    ghost SIZE = { 32 };

    const SIZE: usize = 32;

    fn has_shape(&self, s: &[u8]) -> bool {
        places::text_at(s, 0, b"\x02D:")
            & places::pairs_at(s, 3, b'.')
            & places::text_at(s, 11, b";T:")
            & places::digits_at(s, 14, 1)
            & places::text_at(s, 15, b";U:")
            & places::pairs_at(s, 18, b'.')
            & places::is_at(s, 26, b';')
            & has_letters(s)
    }

    #[tactic(auto, using(forms::proofs::Tests::no_checksum))]
    fn checksum_holds(&self, _s: &[u8]) -> bool {
        true
    }

    // `U` is utc and `S` is summer; `!` announces a change and `A` a leap second, which is no lsp.
    fn decode(&self, s: &[u8]) -> Record {
        Record {
            hour: places::number_at(s, 18, 2),
            minute: places::number_at(s, 21, 2),
            second: places::number_at(s, 24, 2),
            date: Some(Date::Full {
                year: places::number_at(s, 9, 2),
                month: places::number_at(s, 6, 2),
                day: places::number_at(s, 3, 2),
            }),
            sync: places::flag_at(s, 27, b'#'),
            fix: places::flag_at(s, 28, b'*'),
            utc: places::yes_at(s, 29, b'U'),
            summer: places::yes_at(s, 29, b'S'),
            change: places::yes_at(s, 30, b'!'),
            leap: places::yes_at(s, 30, b'A'),
            ..Record::empty()
        }
    }

    fn is_in_range(&self, s: &[u8], told: Record) -> bool {
        told.date_time_in_range() & places::is_weekday(places::number_at(s, 14, 1))
    }

    fn agrees(&self, s: &[u8], told: Record) -> bool {
        places::falls_on(told.date, places::number_at(s, 14, 1))
    }

    fn has_carried(&self, told: Record) -> bool {
        fields::has_full_date(told.date)
            & fields::has_flag(told.sync)
            & fields::has_flag(told.fix)
            & fields::has_flag(told.utc)
            & fields::has_flag(told.summer)
            & fields::has_flag(told.change)
            & fields::has_flag(told.leap)
    }

    // One letter announces a change or a leap second, not both.
    #[tactic(auto, using(crate::proofs::Form::has_words_of))]
    fn is_expressible(&self, told: Record) -> bool {
        !(is_yes(told.change) & is_yes(told.leap))
    }

    fn store(&self, told: Record, out: &mut [u8]) {
        store_date(told, places::weekday_of(told.date), out);
        places::put_pairs(out, 18, b'.', told.hour, told.minute, told.second);
        spelling::put_byte(out, 26, b';');
        store_state(told, out);
        store_zone(told, out);
    }

    ghost sized = { λ _. refl };
}

// `uvxy<ETX>`
#[tactic(auto, unfolding(forms::specs::Places::shape))]
fn has_letters(s: &[u8]) -> bool
    ensures { result ≡ shape (drop 15 standard_layout) 27 s.now }
{
    places::letter_at(s, 27, b"# ")
        & places::letter_at(s, 28, b"* ")
        & places::letter_at(s, 29, b" SU")
        & places::letter_at(s, 30, b" A!")
        & places::is_at(s, 31, 3)
}

// `<STX>D:dd.mm.yy;T:w;U:`
#[tactic(auto, unfolding(places::specs::Stores::stores))]
fn store_date(told: Record, weekday: u32, out: &mut [u8])
    requires { weekday ≡ encode_weekday told.date }
    ensures { out.new ≡ stores (take 9 standard_layout) 0 (encode told) out.old }
{
    spelling::put_bytes(out, 0, b"\x02D:");
    places::put_pairs(
        out,
        3,
        b'.',
        fields::day_of(told.date),
        fields::month_of(told.date),
        fields::year_of(told.date),
    );
    spelling::put_bytes(out, 11, b";T:");
    spelling::put_digits(out, 14, 1, weekday);
    spelling::put_bytes(out, 15, b";U:");
}

// `uv`
#[tactic(auto, unfolding(places::specs::Stores::stores))]
fn store_state(told: Record, out: &mut [u8])
    ensures { out.new ≡ stores (take 2 (drop 15 standard_layout)) 27 (encode told) out.old }
{
    places::put_flag(out, 27, b"# ", told.sync);
    places::put_flag(out, 28, b"* ", told.fix);
}

// `xy<ETX>`
#[tactic(auto, unfolding(places::specs::Stores::stores))]
fn store_zone(told: Record, out: &mut [u8])
    ensures { out.new ≡ stores (drop 17 standard_layout) 29 (encode told) out.old }
{
    places::put_shared(out, 29, b" SU", told.utc, told.summer);
    places::put_shared(out, 30, b" A!", told.change, told.leap);
    spelling::put_byte(out, 31, 3);
}

/// The record that a Standard string tells: refusals 2, 3, 4 and 5.
pub fn read(s: &[u8]) -> Result<Record, Refusal>
    ensures { result ≡ read_by standard s.now }
{
    sized_form::read(&Standard, s)
}

/// Writes 32 bytes at the head of the buffer: refusals 7, 8, 9 and 10. A refused write changes no byte.
#[inline(never)]
pub fn write(told: Record, out: &mut [u8]) -> Result<usize, Refusal>
    ensures { Wrote standard told result out.old out.new }
{
    sized_form::write(&Standard, told, out)
}
