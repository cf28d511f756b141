//! The Gregorian calendar of the years 1980 to 2079, each named by its last two digits, 80 to 99 and 0 to 79. Every function answers for all
//! numbers: None, false or 0 where the calendar has no such date, month or year.
#![tactic(auto)]

ghost use Rattle.std.specs.Prelude.{◌≡◌, true};
ghost use Rattle.calendar.specs.Calendar.{day_number, day_of_year, is_date, is_month, month_length};
ghost use Rattle.calendar.specs.Answers.{date_of_day, day_number_in, day_of_year_in, weekday_in};

mod table;
pub mod year;

/// The month and the day of the month on which a day of the year falls.
#[derive(Clone, Copy, Debug, PartialEq, Eq)]
pub struct MonthDay {
    /// 1 for January to 12 for December.
    pub month: u32,
    /// 1 to the length of the month.
    pub day: u32,
}

/// Whether the calendar has this month of this year.
#[tactic(auto, unfolding(crate::specs::Calendar::is_month))]
fn is_month(year: u32, month: u32) -> bool
    ensures { result ≡ is_month year month }
{
    (year < 100) & ((1 <= month) & (month <= 12))
}

/// The days of a month, 28 to 31: what lies between its entry in the table and the next. 0 for a month that the calendar does not have.
#[tactic(auto, using(crate::proofs::Entries::next_entry, crate::proofs::Ranges::month_range), unfolding(crate::specs::Calendar::month_length))]
pub fn month_length(year: u32, month: u32) -> u32
    ensures { result ≡ month_length year month }
{
    if !is_month(year, month) {
        return 0;
    }
    table::first_of(year, month + 1) - table::first_of(year, month)
}

/// Whether the calendar has this day of this month of this year.
#[tactic(auto, using(crate::proofs::Ranges::in_no_month, crate::proofs::Ranges::in_each_month), unfolding(crate::specs::Calendar::is_date))]
pub fn is_date(year: u32, month: u32, day: u32) -> bool
    ensures { result ≡ is_date year month day }
{
    if !is_month(year, month) {
        return false;
    }
    // No month is shorter than February 2001, whose days the compiler works out: only a later day needs a look at its own month.
    if day <= month_length(1, 2) {
        return 1 <= day;
    }
    day <= month_length(year, month)
}

/// The days from 1 January 1980 to a date of the calendar.
#[tactic(auto, using(crate::proofs::Ranges::date_range, crate::proofs::Ranges::number_lt), unfolding(crate::specs::Calendar::day_number))]
fn number_of(year: u32, month: u32, day: u32) -> u32
    requires { is_date year month day ≡ true }
    ensures { result ≡ day_number year month day }
{
    table::first_of(year, month) + (day - 1)
}

/// The day of the year of a date of the calendar: what lies between two entries of the table, and the day.
#[tactic(auto, using(crate::proofs::Entries::between, crate::proofs::Ranges::date_range), unfolding(crate::specs::Calendar::day_of_year))]
fn day_in_year(year: u32, month: u32, day: u32) -> u32
    requires { is_date year month day ≡ true }
    ensures { result ≡ day_of_year year month day }
{
    table::first_of(year, month) - table::first_of(year, 1) + day
}

/// The days from 1 January 1980 to a date, 0 to 36524. None where there is no such date.
pub fn day_number(year: u32, month: u32, day: u32) -> Option<u32>
    ensures { result ≡ day_number_in year month day }
{
    is_date(year, month, day).then(|| number_of(year, month, day))
}

/// The weekday of a date, 1 for Monday to 7 for Sunday. None where there is no such date.
#[tactic(auto, using(crate::proofs::Ranges::date_range, crate::proofs::Ranges::number_lt), unfolding(crate::specs::Calendar::weekday_of))]
pub fn weekday(year: u32, month: u32, day: u32) -> Option<u32>
    ensures { result ≡ weekday_in year month day }
{
    // One day more: the days from Monday, 31 December 1979.
    Some((day_number(year, month, day)? + 1) % 7 + 1)
}

/// The day of the year of a date, 1 for 1 January to 366 for 31 December of a leap year. None where there is no such date.
pub fn day_of_year(year: u32, month: u32, day: u32) -> Option<u32>
    ensures { result ≡ day_of_year_in year month day }
{
    is_date(year, month, day).then(|| day_in_year(year, month, day))
}

/// The date of a day of the year, 1 for 1 January. None where the year has no such day, and for a year of more than two digits.
#[tactic(auto, using(crate::proofs::Entries::from_january, crate::proofs::Search::steps))]
pub fn date_of_day(year: u32, day: u32) -> Option<MonthDay>
    ensures { result ≡ date_of_day year day }
{
    if 100 <= year {
        return None;
    }
    // No month is longer than January 2000, so the day falls into no month before this one.
    let first = day.checked_sub(1)? / month_length(0, 1) + 1;
    let january = table::first_of(year, 1);
    // What is left of the day behind the months before, until the month has such a day.
    for month in first..=12 {
        let left = day - (table::first_of(year, month) - january);
        if is_date(year, month, left) {
            return Some(MonthDay { month, day: left });
        }
    }
    None
}
