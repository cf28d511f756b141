//! The date of a record: there and of its kind, and its numbers, 0 where it is absent or of another kind.
ghost use Rattle.std.specs.Prelude.{◌≡◌};
ghost use Rattle.forms.specs.Fields.Date.{encode_day, encode_month, encode_year, full_date, has_date, ordinal_date};
ghost use Rattle.fields.specs.Dates.{ordinal_of};

use record::Date;

pub fn has_full_date(date: Option<Date>) -> bool
    ensures { result ≡ has_date full_date date }
{
    matches!(date, Some(Date::Full { .. }))
}

/// Of a full date the day of the year is worked out.
pub fn has_day_of_year(date: Option<Date>) -> bool
    ensures { result ≡ has_date ordinal_date date }
{
    date.is_some()
}

pub fn year_of(date: Option<Date>) -> u32
    ensures { result ≡ encode_year date }
{
    match date {
        Some(Date::Full { year, .. }) => year,
        _ => 0,
    }
}

pub fn month_of(date: Option<Date>) -> u32
    ensures { result ≡ encode_month date }
{
    match date {
        Some(Date::Full { month, .. }) => month,
        _ => 0,
    }
}

pub fn day_of(date: Option<Date>) -> u32
    ensures { result ≡ encode_day date }
{
    match date {
        Some(Date::Full { day, .. }) => day,
        _ => 0,
    }
}

/// The day of the year of a date, 0 where it is absent or does not exist.
pub fn ordinal_of(date: Option<Date>) -> u32
    ensures { result ≡ ordinal_of date }
{
    match date {
        None => 0,
        Some(Date::Full { year, month, day }) => calendar::day_of_year(year, month, day).unwrap_or(
            0,
        ),
        Some(Date::DayOfYear(n)) => n,
    }
}
