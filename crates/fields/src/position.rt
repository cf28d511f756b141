//! The position of a record: there and of its kind, and the signs and magnitudes of its numbers.
ghost use Rattle.std.specs.Prelude.{◌≡◌, nat_abs};
ghost use Rattle.forms.specs.Fields.Position.{degrees, encode_altitude, encode_latitude, encode_longitude, has_position, latitude_of, longitude_of, minutes};
ghost use Rattle.fields.specs.Signs.{is_south, is_west};

use record::Position;

pub fn has_degrees(position: Option<Position>) -> bool
    ensures { result ≡ has_position degrees position }
{
    matches!(position, Some(Position::Degrees { .. }))
}

pub fn has_minutes(position: Option<Position>) -> bool
    ensures { result ≡ has_position minutes position }
{
    matches!(position, Some(Position::Minutes { .. }))
}

// In the unit of its kind, north and east positive, 0 where there is no position.
fn latitude(position: Option<Position>) -> i32
    ensures { result ≡ latitude_of position }
{
    match position {
        None => 0,
        Some(Position::Degrees { latitude, .. } | Position::Minutes { latitude, .. }) => latitude,
    }
}

pub fn is_south(position: Option<Position>) -> bool
    ensures { result ≡ is_south position }
{
    latitude(position) < 0
}

/// The magnitude in the unit of its kind, whichever that is.
pub fn latitude_units(position: Option<Position>) -> u32
    ensures { result ≡ nat_abs (latitude_of position) }
{
    latitude(position).unsigned_abs()
}

/// Ten-thousandths of a degree, 0 where the position is not in degrees.
pub fn latitude_of(position: Option<Position>) -> u32
    ensures { result ≡ encode_latitude degrees position }
{
    if has_degrees(position) {
        latitude_units(position)
    } else {
        0
    }
}

/// Hundredths of a minute, 0 where the position is not in minutes.
pub fn latitude_in_minutes(position: Option<Position>) -> u32
    ensures { result ≡ encode_latitude minutes position }
{
    if has_minutes(position) {
        latitude_units(position)
    } else {
        0
    }
}

// In the unit of its kind, north and east positive, 0 where there is no position.
fn longitude(position: Option<Position>) -> i32
    ensures { result ≡ longitude_of position }
{
    match position {
        None => 0,
        Some(Position::Degrees { longitude, .. } | Position::Minutes { longitude, .. }) =>
            longitude,
    }
}

pub fn is_west(position: Option<Position>) -> bool
    ensures { result ≡ is_west position }
{
    longitude(position) < 0
}

/// The magnitude in the unit of its kind, whichever that is.
pub fn longitude_units(position: Option<Position>) -> u32
    ensures { result ≡ nat_abs (longitude_of position) }
{
    longitude(position).unsigned_abs()
}

/// Ten-thousandths of a degree, 0 where the position is not in degrees.
pub fn longitude_of(position: Option<Position>) -> u32
    ensures { result ≡ encode_longitude degrees position }
{
    if has_degrees(position) {
        longitude_units(position)
    } else {
        0
    }
}

/// Hundredths of a minute, 0 where the position is not in minutes.
pub fn longitude_in_minutes(position: Option<Position>) -> u32
    ensures { result ≡ encode_longitude minutes position }
{
    if has_minutes(position) {
        longitude_units(position)
    } else {
        0
    }
}

pub fn altitude_of(position: Option<Position>) -> u32
    ensures { result ≡ encode_altitude position }
{
    match position {
        Some(Position::Degrees { altitude, .. }) => altitude,
        _ => 0,
    }
}
