//! The Uni Erlangen string, form 3: `<STX>dd.mm.yy; w; hh:mm:ss; voo:oo; acdfg i;bbb.bbbbn lll.lllle hhhhm<ETX>`.
#![tactic(auto)]

ghost use Rattle.std.specs.Prelude.{◌≡◌, refl};
ghost use Rattle.forms.specs.Form.{Wrote, read_by};
ghost use Rattle.forms.specs.Serial.{erlangen};

use record::Record;
use record::range::{offset_in_range, position_in_range};
use record::refusal::Refusal;
use sized_form::SizedForm;

mod consistency;
mod decoding;
mod shape;
mod store;

/// A Uni Erlangen string: 66 bytes.
#[derive(Clone, Copy, Debug, PartialEq, Eq)]
struct Erlangen;

impl SizedForm for Erlangen {
    ghost form = { λ _. erlangen };

    ghost SIZE = { 66 };

    const SIZE: usize = 66;

    fn has_shape(&self, s: &[u8]) -> bool {
        shape::is_date(s)
            & shape::is_time(s)
            & shape::is_offset(s)
            & shape::are_flags(s)
            & shape::is_leap_second(s)
            & shape::is_latitude(s)
            & shape::is_longitude(s)
            & shape::is_altitude(s)
    }

    #[tactic(auto, using(forms::proofs::Tests::no_checksum))]
    fn checksum_holds(&self, _s: &[u8]) -> bool {
        true
    }

    fn decode(&self, s: &[u8]) -> Record {
        Record {
            hour: places::number_at(s, 14, 2),
            minute: places::number_at(s, 17, 2),
            second: places::number_at(s, 20, 2),
            date: decoding::date_at(s),
            sync: places::flag_at(s, 32, b'#'),
            fix: places::flag_at(s, 33, b'*'),
            summer: places::flag_at(s, 34, b' '),
            change: places::flag_at(s, 35, b' '),
            leap: places::flag_at(s, 36, b' '),
            offset: decoding::offset_at(s),
            position: decoding::position_at(s),
            ..Record::empty()
        }
    }

    // Beside the record's, the weekday and the minutes of the offset have a range.
    fn is_in_range(&self, s: &[u8], told: Record) -> bool {
        let weekday = places::number_at(s, 11, 1);
        let minutes = places::number_at(s, 28, 2);
        let in_range = told.date_time_in_range()
            & (offset_in_range(told.offset) & position_in_range(told.position));
        in_range & (places::is_weekday(weekday) & (minutes < 60))
    }

    // The weekday, `L` and the signs are told twice.
    fn agrees(&self, s: &[u8], told: Record) -> bool {
        places::falls_on(told.date, places::number_at(s, 11, 1))
            & (consistency::leap_agrees(s) & consistency::signs_agree(s))
    }

    #[tactic(auto, using(places::proofs::Chain::flat), unfolding(forms::specs::Required::has_carried, forms::specs::Carries::carries_of, forms::specs::Places::has))]
    fn has_carried(&self, told: Record) -> bool {
        fields::has_full_date(told.date)
            & fields::has_flag(told.sync)
            & fields::has_flag(told.fix)
            & fields::has_flag(told.summer)
            & fields::has_flag(told.change)
            & fields::has_flag(told.leap)
            & fields::has_offset(told.offset)
            & fields::has_degrees(told.position)
    }

    // Every field has a letter for yes and one for no.
    fn is_expressible(&self, _told: Record) -> bool {
        true
    }

    fn store(&self, told: Record, out: &mut [u8]) {
        store::store_date(told, places::weekday_of(told.date), out);
        store::store_time(told, out);
        store::store_offset(told, out);
        store::store_state(told, out);
        store::store_zone(told, out);
        store::store_leap_second(told, out);
        store::store_position(told, out);
    }

    ghost sized = { λ _. refl };
}

/// The record that the string tells: refusals 2, 3, 4 and 5.
pub fn read(s: &[u8]) -> Result<Record, Refusal>
    ensures { result ≡ read_by erlangen s.now }
{
    sized_form::read(&Erlangen, s)
}

/// Writes the record's string at the head of the buffer, and hands back its 66 bytes' number: refusals 7, 8 and 10. A refused write
/// changes no byte.
#[inline(never)]
pub fn write(told: Record, out: &mut [u8]) -> Result<usize, Refusal>
    ensures { Wrote erlangen told result out.old out.new }
{
    sized_form::write(&Erlangen, told, out)
}
