//! What a frame tells beside its record: its numbers' ranges and the seconds of the day.
ghost use Rattle.std.specs.Prelude.{◌≡◌, true, ◌≤◌, length};
ghost use Rattle.forms.specs.Fields.Time.{seconds_of_day};
ghost use Rattle.forms.specs.Form.{numbers_in_range};
ghost use Rattle.frame.specs.Layouts.{told};

use crate::groups::number_at;

// TFOM is 0 or 15, and no second is deleted.
pub(crate) fn numbers_in_range(s: &[u8]) -> bool
    requires { length s.now ≡ 100 }
    ensures { result ≡ numbers_in_range (told s.now) }
{
    let tfom = number_at(s, 71, 4);
    ((tfom == 0) | (tfom == 15)) & (number_at(s, 61, 1) == 0)
}

// The seconds of the day; the bounds hold for a time in range.
pub(crate) fn seconds_of_day(hour: u32, minute: u32, second: u32) -> u32
    requires { (hour ≤ 23) × (minute ≤ 59) × (second ≤ 60) }
    ensures { result ≡ seconds_of_day hour minute second }
{
    hour * 3600 + minute * 60 + second
}
