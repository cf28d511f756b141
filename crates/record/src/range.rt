// Which values are in range, and which records are good.
ghost use Rattle.std.specs.Prelude.{◌≡◌};
ghost use Rattle.record.specs.Record.{time_in_range, date_in_range, fraction_in_range, channel_in_range, offset_in_range, position_in_range, date_time_in_range, rest_in_range, in_range, is_yes, zone_agrees, is_good, empty_record};

use crate::{Date, Fraction, Position, Record};

/// Second 60 is a leap second.
#[tactic(auto, unfolding(crate::specs::Record::time_in_range))]
pub fn time_in_range(hour: u32, minute: u32, second: u32) -> bool
    ensures { result ≡ time_in_range hour minute second }
{
    (hour < 24) & ((minute < 60) & (second <= 60))
}

#[tactic(auto, unfolding(crate::specs::Record::date_in_range))]
pub fn date_in_range(date: Option<Date>) -> bool
    ensures { result ≡ date_in_range date }
{
    match date {
        None => true,
        Some(Date::Full { year, month, day }) => calendar::is_date(year, month, day),
        Some(Date::DayOfYear(n)) => (1 <= n) & (n <= 366),
    }
}

#[tactic(auto, unfolding(crate::specs::Record::fraction_in_range))]
pub fn fraction_in_range(fraction: Option<Fraction>) -> bool
    ensures { result ≡ fraction_in_range fraction }
{
    match fraction {
        None => true,
        Some(Fraction::Thousandths(n)) => n < 1000,
        Some(Fraction::TenMillionths(n)) => n < 10000000,
        Some(Fraction::Hundredths(n)) => n < 100,
    }
}

#[tactic(auto, unfolding(crate::specs::Record::channel_in_range))]
pub fn channel_in_range(channel: Option<u32>) -> bool
    ensures { result ≡ channel_in_range channel }
{
    channel.is_none_or(|n| n <= 1)
}

#[tactic(auto, unfolding(crate::specs::Record::offset_in_range))]
pub fn offset_in_range(offset: Option<i32>) -> bool
    ensures { result ≡ offset_in_range offset }
{
    offset.is_none_or(|minutes| minutes.unsigned_abs() <= 840)
}

#[tactic(auto, unfolding(crate::specs::Record::position_in_range))]
pub fn position_in_range(position: Option<Position>) -> bool
    ensures { result ≡ position_in_range position }
{
    match position {
        None => true,
        Some(
            Position::Degrees {
                latitude,
                longitude,
                altitude,
            },
        ) => {
            (latitude.unsigned_abs() <= 900000)
                & ((longitude.unsigned_abs() <= 1800000) & (altitude <= 9999))
        }
        Some(
            Position::Minutes {
                latitude,
                longitude,
            },
        ) => (latitude.unsigned_abs() <= 540000) & (longitude.unsigned_abs() <= 1080000),
    }
}

/// Whether a field is there and yes.
pub fn is_yes(flag: Option<bool>) -> bool
    ensures { result ≡ is_yes flag }
{
    flag.unwrap_or(false)
}

impl Record {
    /// Time 00:00:00 and all else absent.
    pub fn empty() -> Record
        ensures { result ≡ empty_record }
    {
        Record::default()
    }

    /// Every form carries these. A reader tests them, and what else its form carries, by functions that are small enough to be inlined.
    pub fn date_time_in_range(self) -> bool
        ensures { result ≡ date_time_in_range self }
    {
        if !time_in_range(self.hour, self.minute, self.second) {
            return false;
        }
        date_in_range(self.date)
    }

    fn rest_in_range(self) -> bool
        ensures { result ≡ rest_in_range self }
    {
        fraction_in_range(self.fraction)
            & (channel_in_range(self.channel)
                & (offset_in_range(self.offset) & position_in_range(self.position)))
    }

    /// The date is last, since it may need a look at the calendar's table.
    #[inline(always)]
    #[tactic(auto, unfolding(crate::specs::Record::in_range))]
    pub fn in_range(self) -> bool
        ensures { result ≡ in_range self }
    {
        if !self.rest_in_range() {
            return false;
        }
        self.date_time_in_range()
    }

    /// Summer time is no UTC.
    #[tactic(auto, unfolding(crate::specs::Record::zone_agrees))]
    pub fn zone_agrees(self) -> bool
        ensures { result ≡ zone_agrees self }
    {
        !(is_yes(self.utc) & is_yes(self.summer))
    }

    #[inline(always)]
    #[tactic(auto, unfolding(crate::specs::Record::is_good))]
    pub fn is_good(self) -> bool
        ensures { result ≡ is_good self }
    {
        self.in_range() & self.zone_agrees()
    }
}
