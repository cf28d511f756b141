// The calendar for C programs, by the two digits of a year.
ghost use Rattle.calendar.specs.Answers.{day_number_in, full_year_in};
ghost use Rattle.lindenscoop.specs.Calendar.{NumberedAs};

use record::refusal::Refusal;

fn store(answer: Option<u32>, number: &mut u32) -> u32
    ensures { NumberedAs answer result number.new }
{
    match answer {
        Some(found) => {
            *number = found;
            0
        }
        None => {
            *number = 0;
            u32::from(Refusal::OutOfRange)
        }
    }
}

/// The year with its century that the digits `yy` name.
pub fn lindenscoop_full_year_raw(yy: u32, year: &mut u32) -> u32
    ensures { NumberedAs (full_year_in yy) result year.new }
{
    store(calendar::year::full_year(yy), year)
}

/// The days from 1 January 1980 to a date.
pub fn lindenscoop_days_since_1980_raw(yy: u32, month: u32, day: u32, days: &mut u32) -> u32
    ensures { NumberedAs (day_number_in yy month day) result days.new }
{
    store(calendar::day_number(yy, month, day), days)
}
