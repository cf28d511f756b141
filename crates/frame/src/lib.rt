//! The IEEE1344 frame by a sign rule, forms 8 and 11: ten groups of ten elements, 0, 1, or 2 for a position mark.
#![tactic(auto)]

ghost use Rattle.std.specs.Prelude.{◌≡◌, refl};
ghost use Rattle.forms.specs.Form.{Wrote, read_by};
ghost use Rattle.forms.specs.Frame.{frame};

use groups::{number_at, pair_number};
use record::Record;
use record::refusal::Refusal;
use record::sign::SignRule;
use sized_form::SizedForm;

mod decoding;
mod groups;
mod parity;
mod rows;
mod shape;
mod sign;
mod store;
mod validation;

/// The frame under a sign rule: form 8 where a sign of 1 tells an offset above zero, form 11 where it tells one below.
#[derive(Clone, Copy)]
struct Frame {
    rule: SignRule,
}

impl SizedForm for Frame {
    ghost form = { λ f. frame f.rule };

    ghost SIZE = { 100 };

    const SIZE: usize = 100;

    fn has_shape(&self, s: &[u8]) -> bool {
        shape::has_time(s)
            & shape::has_date(s)
            & shape::has_zone(s)
            & groups::pair_at(s, 80, 9, 2, 8)
            & places::is_at(s, 98, 0)
            & places::is_at(s, 99, 2)
    }

    fn checksum_holds(&self, s: &[u8]) -> bool {
        number_at(s, 75, 1) == parity::parity_of(s)
    }

    fn decode(&self, s: &[u8]) -> Record {
        Record {
            hour: pair_number(s, 20, 4, 2, 10, 40),
            minute: pair_number(s, 10, 4, 3, 10, 80),
            second: pair_number(s, 1, 4, 3, 10, 80),
            date: decoding::date_at(s),
            sync: decoding::sync_at(s),
            summer: places::flag_at(s, 63, 0),
            offset: decoding::offset_at(s, self.rule),
            dsp: places::flag_at(s, 62, 0),
            lsp: places::flag_at(s, 60, 0),
            ..Record::empty()
        }
    }

    fn is_in_range(&self, s: &[u8], told: Record) -> bool {
        told.in_range() & validation::numbers_in_range(s)
    }

    // A zero offset has no sign of 1.
    fn agrees(&self, s: &[u8], told: Record) -> bool {
        let seconds = pair_number(s, 80, 9, 8, 512, 131072);
        (seconds == validation::seconds_of_day(told.hour, told.minute, told.second))
            & !((number_at(s, 64, 1) != 0) & (decoding::offset_minutes(s) == 0))
    }

    fn has_carried(&self, told: Record) -> bool {
        fields::has_full_date(told.date)
            & fields::has_flag(told.sync)
            & fields::has_flag(told.summer)
            & fields::has_offset(told.offset)
            & fields::has_flag(told.dsp)
            & fields::has_flag(told.lsp)
    }

    // An offset between two half hours has no element.
    fn is_expressible(&self, told: Record) -> bool {
        rows::half_hour_of(told.offset) < 2
    }

    // The parity is taken over the elements that tell none.
    fn store(&self, told: Record, out: &mut [u8]) {
        let sign = sign::sign_of(self.rule, told.offset);
        let mut elements = [0; 100];
        store::put_rows(rows::rows_of(told, sign, 0), &mut elements);
        store::put_rows(rows::rows_of(told, sign, parity::parity_of(&elements)), out);
    }

    ghost sized = { λ _. refl };
}

/// The record that the frame tells under the sign rule: refusals 2, 3, 6, 4 and 5.
#[inline(never)]
pub fn read(rule: SignRule, s: &[u8]) -> Result<Record, Refusal>
    ensures { result ≡ read_by (frame rule) s.now }
{
    sized_form::read(&Frame { rule }, s)
}

/// Writes the record's frame under the sign rule at the head of the buffer, and hands back its 100 bytes' number: refusals 7, 8, 9 and
/// 10. A refused write changes no byte.
#[inline(never)]
pub fn write(rule: SignRule, told: Record, out: &mut [u8]) -> Result<usize, Refusal>
    ensures { Wrote (frame rule) told result out.old out.new }
{
    sized_form::write(&Frame { rule }, told, out)
}
