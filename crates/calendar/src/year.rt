//! The years that two digits name: 80 to 99 those from 1980 on, 00 to 79 those from 2000 on.
ghost use Rattle.std.specs.Prelude.{◌≡◌, ◌<◌};
ghost use Rattle.calendar.specs.Answers.{full_year_in};
ghost use Rattle.calendar.specs.Calendar.{year_of};

pub(crate) fn year_of(year: u32) -> u32
    requires { year < 100 }
    ensures { result ≡ year_of year }
{
    if 80 <= year { 1900 + year } else { 2000 + year }
}

/// The year with its century, 1980 to 2079, that two digits name. None for a number of more digits.
pub fn full_year(year: u32) -> Option<u32>
    ensures { result ≡ full_year_in year }
{
    (year < 100).then(|| year_of(year))
}
