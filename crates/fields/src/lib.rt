// The fields of a record as layouts tell them: whether a field is there and of its kind, and its number.
#![tactic(auto)]

mod channel;
mod date;
mod flag;
mod fraction;
mod offset;
mod position;

pub use channel::{channel_of, has_channel};
pub use date::{day_of, has_day_of_year, has_full_date, month_of, ordinal_of, year_of};
pub use flag::has_flag;
pub use fraction::{
    has_hundredths, has_ten_millionths, has_thousandths, hundredths_of, ten_millionths_of,
    thousandths_of,
};
pub use offset::{has_offset, is_minus, minutes_of};
pub use position::{
    altitude_of, has_degrees, has_minutes, is_south, is_west, latitude_in_minutes, latitude_of,
    latitude_units, longitude_in_minutes, longitude_of, longitude_units,
};
