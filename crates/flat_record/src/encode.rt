// The numbers of a record.
ghost use Rattle.std.specs.Prelude.{◌≡◌, ◌+◌, ◌≤◌, length};
ghost use Rattle.std.proofs.lemmas.List.Edits.{sets};
ghost use Rattle.cond.specs.Pick.{one_if};
ghost use Rattle.forms.specs.Fields.Channel.{channel_choice};
ghost use Rattle.forms.specs.Fields.Date.{date_choice, encode_day, encode_month, encode_year};
ghost use Rattle.forms.specs.Fields.Flag.{flag_choice};
ghost use Rattle.forms.specs.Fields.Fraction.{fraction_choice};
ghost use Rattle.forms.specs.Fields.Offset.{offset_choice};
ghost use Rattle.forms.specs.Fields.Position.{encode_altitude, latitude_of, longitude_of, position_choice};
ghost use Rattle.flat_record.specs.Encode.{Put, day_alone, fraction_value, head_of, size, tail_of};

use crate::SIZE;
use record::refusal::Refusal;
use record::sign::is_negative;
use record::{Date, Fraction, Position, Record};

fn one_if(test: bool) -> u32
    ensures { result ≡ one_if test }
{
    if test { 1 } else { 0 }
}

// The numbers of a date. One match for all of them: a function for each would tell the date apart again.
#[derive(Clone, Copy)]
struct DateNumbers {
    kind: u32,
    year: u32,
    month: u32,
    day: u32,
    // A full date has no day of year of its own.
    ordinal: u32,
}

fn date_numbers(date: Option<Date>) -> DateNumbers
    ensures kind { result.kind ≡ date_choice date }
    ensures year { result.year ≡ encode_year date }
    ensures month { result.month ≡ encode_month date }
    ensures day { result.day ≡ encode_day date }
    ensures ordinal { result.ordinal ≡ day_alone date }
{
    match date {
        None => DateNumbers {
            kind: 0,
            year: 0,
            month: 0,
            day: 0,
            ordinal: 0,
        },
        Some(Date::Full { year, month, day }) => DateNumbers {
            kind: 1,
            year,
            month,
            day,
            ordinal: 0,
        },
        Some(Date::DayOfYear(ordinal)) => DateNumbers {
            kind: 2,
            year: 0,
            month: 0,
            day: 0,
            ordinal,
        },
    }
}

fn fraction_kind(fraction: Option<Fraction>) -> u32
    ensures { result ≡ fraction_choice fraction }
{
    match fraction {
        None => 0,
        Some(Fraction::Thousandths(_)) => 1,
        Some(Fraction::TenMillionths(_)) => 2,
        Some(Fraction::Hundredths(_)) => 3,
    }
}

fn fraction_value(fraction: Option<Fraction>) -> u32
    ensures { result ≡ fraction_value fraction }
{
    match fraction {
        None => 0,
        Some(Fraction::Thousandths(n)) => n,
        Some(Fraction::TenMillionths(n)) => n,
        Some(Fraction::Hundredths(n)) => n,
    }
}

fn channel_kind(channel: Option<u32>) -> u32
    ensures { result ≡ channel_choice channel }
{
    match channel {
        None => 0,
        Some(_) => 1,
    }
}

fn flag_kind(flag: Option<bool>) -> u32
    ensures { result ≡ flag_choice flag }
{
    match flag {
        None => 0,
        Some(false) => 1,
        Some(true) => 2,
    }
}

fn offset_kind(offset: Option<i32>) -> u32
    ensures { result ≡ offset_choice offset }
{
    match offset {
        None => 0,
        Some(_) => 1,
    }
}

// The numbers of a position but for the signs, likewise.
#[derive(Clone, Copy)]
struct PositionNumbers {
    kind: u32,
    latitude: i32,
    longitude: i32,
    altitude: u32,
}

fn position_numbers(position: Option<Position>) -> PositionNumbers
    ensures kind { result.kind ≡ position_choice position }
    ensures latitude { result.latitude ≡ latitude_of position }
    ensures longitude { result.longitude ≡ longitude_of position }
    ensures altitude { result.altitude ≡ encode_altitude position }
{
    match position {
        None => PositionNumbers {
            kind: 0,
            latitude: 0,
            longitude: 0,
            altitude: 0,
        },
        Some(
            Position::Degrees {
                latitude,
                longitude,
                altitude,
            },
        ) => PositionNumbers {
            kind: 1,
            latitude,
            longitude,
            altitude,
        },
        Some(
            Position::Minutes {
                latitude,
                longitude,
            },
        ) => PositionNumbers {
            kind: 2,
            latitude,
            longitude,
            altitude: 0,
        },
    }
}

// Puts all of n at a place of out.
fn put_numbers(out: &mut [u32], at: usize, n: &[u32])
    requires { at + length n.now ≤ length out.old }
    ensures { out.new ≡ sets out.old at n.now }
{
    let mut i = 0;
    while i < n.len() {
        out[at + i] = n[i];
        i += 1;
    }
}

fn put_head(r: Record, out: &mut [u32])
    requires { size ≤ length out.old }
    ensures { out.new ≡ sets out.old 0 (head_of r) }
{
    let date = date_numbers(r.date);
    let n = [
        r.hour,
        r.minute,
        r.second,
        date.kind,
        date.year,
        date.month,
        date.day,
        date.ordinal,
        fraction_kind(r.fraction),
        fraction_value(r.fraction),
        channel_kind(r.channel),
        fields::channel_of(r.channel),
    ];
    put_numbers(out, 0, &n);
}

#[tactic(auto, unfolding(crate::specs::Encode::tail_of))]
fn put_tail(r: Record, out: &mut [u32])
    requires { size ≤ length out.old }
    ensures { out.new ≡ sets out.old 12 (tail_of r) }
{
    let position = position_numbers(r.position);
    let n = [
        flag_kind(r.sync),
        flag_kind(r.fix),
        flag_kind(r.utc),
        flag_kind(r.summer),
        flag_kind(r.change),
        flag_kind(r.leap),
        offset_kind(r.offset),
        one_if(fields::is_minus(r.offset)),
        fields::minutes_of(r.offset),
        position.kind,
        one_if(is_negative(position.latitude)),
        position.latitude.unsigned_abs(),
        one_if(is_negative(position.longitude)),
        position.longitude.unsigned_abs(),
        position.altitude,
        flag_kind(r.dsp),
        flag_kind(r.lsp),
    ];
    put_numbers(out, 12, &n);
}

// Stores the numbers of a record at the head of out.
pub fn put_record(r: Record, out: &mut [u32]) -> Result<usize, Refusal>
    ensures { Put r result out.old out.new }
{
    if out.len() < SIZE {
        return Err(Refusal::ShortBuffer);
    }
    put_head(r, out);
    put_tail(r, out);
    Ok(SIZE)
}
