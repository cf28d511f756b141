//! The record of a time string, the refusals, and what the answers of readers and writers tell.
//! A field that was not sent is `None`, which no number stands for.
#![tactic(auto)]

pub mod answer;
pub mod range;
pub mod refusal;
pub mod sign;

/// The year by its two digits.
#[derive(Clone, Copy, Debug, PartialEq, Eq)]
pub enum Date {
    Full { year: u32, month: u32, day: u32 },
    DayOfYear(u32),
}

/// Parts of the second. No unit is ever turned into another.
#[derive(Clone, Copy, Debug, PartialEq, Eq)]
pub enum Fraction {
    Thousandths(u32),
    TenMillionths(u32),
    Hundredths(u32),
}

/// North and east positive: ten-thousandths of a degree, with metres, or hundredths of a minute. One is never turned into the other.
#[derive(Clone, Copy, Debug, PartialEq, Eq)]
pub enum Position {
    Degrees {
        latitude: i32,
        longitude: i32,
        altitude: u32,
    },
    Minutes {
        latitude: i32,
        longitude: i32,
    },
}

/// What a time string tells. `offset` is minutes of local time minus UTC; the default is time 00:00:00 and all else absent.
#[derive(Clone, Copy, Debug, PartialEq, Eq, Default)]
pub struct Record {
    pub hour: u32,
    pub minute: u32,
    pub second: u32,
    pub date: Option<Date>,
    pub fraction: Option<Fraction>,
    pub channel: Option<u32>,
    pub sync: Option<bool>,
    pub fix: Option<bool>,
    pub utc: Option<bool>,
    pub summer: Option<bool>,
    pub change: Option<bool>,
    pub leap: Option<bool>,
    pub offset: Option<i32>,
    pub position: Option<Position>,
    pub dsp: Option<bool>,
    pub lsp: Option<bool>,
}
