//! The date, the sync and the offset that the elements tell.
ghost use Rattle.std.specs.Prelude.{◌≡◌, true, ◌≤◌, length};
ghost use Rattle.forms.specs.Fields.Date.{decode_date, year_and_day};
ghost use Rattle.forms.specs.Fields.Flag.{by_quality, decode_flag};
ghost use Rattle.record.specs.declared.sign.SignRule.TheVariants.{OneBelow};
ghost use Rattle.forms.specs.Fields.Offset.{in_half_hours, decode_minutes, decode_offset, told_by};
ghost use Rattle.forms.specs.Slots.{half_hour, minus, quality};
ghost use Rattle.frame.specs.Layouts.{told};

use crate::groups::{day_of_year, number_at, pair_number};
use crate::sign::minus_by;
use calendar::MonthDay;
use record::Date;
use record::sign::SignRule;

// The date of a day of the year; where the year has no such day, month and day 0.
pub(crate) fn date_at(s: &[u8]) -> Option<Date>
    requires { length s.now ≡ 100 }
    ensures { result ≡ decode_date year_and_day (told s.now) }
{
    let year = pair_number(s, 50, 4, 4, 10, 100);
    let found = calendar::date_of_day(year, day_of_year(s));
    match found {
        Some(MonthDay { month, day }) => Some(Date::Full { year, month, day }),
        None => Some(Date::Full {
            year,
            month: 0,
            day: 0,
        }),
    }
}

// TFOM 0 is sync yes.
pub(crate) fn sync_at(s: &[u8]) -> Option<bool>
    requires { length s.now ≡ 100 }
    ensures { result ≡ decode_flag by_quality 0 (told s.now quality) }
{
    let tfom = number_at(s, 71, 4);
    if tfom == 0 { Some(true) } else { Some(false) }
}

// No half hour, one, or an element that is neither.
fn half_hour(s: &[u8]) -> u32
    requires { length s.now ≡ 100 }
    ensures { (result ≡ told s.now half_hour) × (result ≤ 2) }
{
    if places::is_at(s, 70, 0) {
        return 0;
    }
    if places::is_at(s, 70, 1) {
        return 1;
    }
    2
}

// The minutes of the offset without its sign.
pub(crate) fn offset_minutes(s: &[u8]) -> u32
    requires { length s.now ≡ 100 }
    ensures { (result ≡ decode_minutes (in_half_hours OneBelow) (told s.now)) × (result ≤ 300000) }
{
    number_at(s, 65, 4) * 60 + half_hour(s) * 30
}

pub(crate) fn offset_at(s: &[u8], rule: SignRule) -> Option<i32>
    requires { length s.now ≡ 100 }
    ensures { result ≡ told_by rule (decode_offset true (told s.now minus) (decode_minutes (in_half_hours OneBelow) (told s.now))) }
{
    let minus = minus_by(rule, number_at(s, 64, 1) != 0);
    Some(record::sign::signed_number(minus, offset_minutes(s)))
}
