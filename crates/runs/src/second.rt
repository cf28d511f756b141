//! A second of the calendar, and which second is next.
ghost use Rattle.std.specs.Prelude.{◌≡◌, true};
ghost use Rattle.calendar.specs.Calendar.{day_number};
ghost use Rattle.runs.specs.Seconds.{in_minute, is_next, is_second, minute_of, over_minute, same_minute};

/// A second of the calendar, or six numbers that are none: `is_second` tells. The year by its two digits, 80 to 99 and 00 to 79.
#[repr(C)]
#[derive(Clone, Copy, Debug, PartialEq, Eq)]
pub struct Second {
    pub yy: u32,
    pub month: u32,
    pub day: u32,
    pub hour: u32,
    pub minute: u32,
    pub second: u32,
}

/// Whether the calendar has this second.
#[tactic(auto, unfolding(crate::specs::Seconds::is_second))]
pub fn is_second(s: Second) -> bool
    ensures { result ≡ is_second s }
{
    record::range::time_in_range(s.hour, s.minute, s.second)
        & calendar::is_date(s.yy, s.month, s.day)
}

// The days from the calendar's first to the day of a second.
#[tactic(auto, using(crate::proofs::Seconds::dated), unfolding(crate::specs::Seconds::is_second))]
fn day_of(s: Second) -> u32
    requires { is_second s ≡ true }
    ensures { result ≡ day_number s.yy s.month s.day }
{
    calendar::day_number(s.yy, s.month, s.day).unwrap_or(0)
}

// The minutes from the calendar's first to this one.
#[tactic(auto, using(crate::proofs::Seconds::hour_lt, crate::proofs::Seconds::minutes_lt, crate::proofs::Seconds::days_lt), unfolding(crate::specs::Seconds::minute_of))]
fn minute_of(s: Second) -> u32
    requires { is_second s ≡ true }
    ensures { result ≡ minute_of s }
{
    day_of(s) * 1440 + (s.hour * 60 + s.minute)
}

// Whether both stand in one minute.
#[tactic(auto, unfolding(crate::specs::Seconds::same_minute))]
fn same_minute(a: Second, b: Second) -> bool
    ensures { result ≡ same_minute a b }
{
    ((a.minute == b.minute) & (a.hour == b.hour))
        & ((a.day == b.day) & ((a.month == b.month) & (a.yy == b.yy)))
}

// Whether `b` is one second on in the minute of `a`.
#[tactic(auto, using(crate::proofs::Seconds::second_le), unfolding(crate::specs::Seconds::in_minute))]
fn in_minute(a: Second, b: Second) -> bool
    requires { is_second a ≡ true }
    ensures { result ≡ in_minute a b }
{
    same_minute(a, b) & (b.second == a.second + 1)
}

// Days are counted only where a minute ends.
#[tactic(auto, using(crate::proofs::Seconds::minute_lt), unfolding(crate::specs::Seconds::over_minute))]
fn over_minute(a: Second, b: Second) -> bool
    requires { (is_second a ≡ true) × (is_second b ≡ true) }
    ensures { result ≡ over_minute a b }
{
    ((59 <= a.second) & (b.second == 0)) && minute_of(b) == minute_of(a) + 1
}

/// Whether `b` is the second after `a`.
#[tactic(auto, unfolding(crate::specs::Seconds::is_next))]
pub fn is_next(a: Second, b: Second) -> bool
    ensures { result ≡ is_next a b }
{
    if !(is_second(a) & is_second(b)) {
        return false;
    }
    in_minute(a, b) || over_minute(a, b)
}
