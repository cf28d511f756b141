// What a layout tells twice must agree.
ghost use Rattle.std.specs.Prelude.{◌≡◌, true, ◌&&◌, eqb};
ghost use Rattle.calendar.specs.Calendar.{is_date, weekday_of};
ghost use Rattle.forms.specs.Fields.Date.{weekday_in_range};
ghost use Rattle.places.specs.Weekday.{falls_on, weekday_on};

use record::Date;

// The date exists and falls on this weekday.
fn weekday_agrees(year: u32, month: u32, day: u32, weekday: u32) -> bool
    ensures { result ≡ (is_date year month day && eqb weekday (weekday_of year month day)) }
{
    calendar::weekday(year, month, day) == Some(weekday)
}

// 1 Monday to 7 Sunday.
#[tactic(auto, unfolding(forms::specs::Fields::Date::weekday_in_range))]
pub fn is_weekday(n: u32) -> bool
    ensures { result ≡ weekday_in_range true n }
{
    (1 <= n) & (n <= 7)
}

// The full date exists and falls on this weekday.
pub fn falls_on(date: Option<Date>, weekday: u32) -> bool
    ensures { result ≡ falls_on date weekday }
{
    weekday_agrees(
        fields::year_of(date),
        fields::month_of(date),
        fields::day_of(date),
        weekday,
    )
}

// The weekday of a full date, 1 Monday to 7 Sunday, 0 where there is no such date.
pub fn weekday_of(date: Option<Date>) -> u32
    ensures { result ≡ weekday_on date }
{
    calendar::weekday(
        fields::year_of(date),
        fields::month_of(date),
        fields::day_of(date),
    )
    .unwrap_or(0)
}
