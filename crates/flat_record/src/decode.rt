// The record that numbers give. Those of an absent field are not looked at.
ghost use Rattle.std.specs.Prelude.{◌≡◌, true, length};
ghost use Rattle.flat_record.specs.Decode.{channel_in, date_at, flag_in, fraction_in, is_flat, kind_of};
ghost use Rattle.flat_record.specs.Decode.{offset_at, offset_fits, position_at, position_fits, record_at, record_of, sign_fits, signed_in, signs_fit};
ghost use Rattle.flat_record.specs.Encode.{size};

use crate::SIZE;
use record::refusal::Refusal;
use record::sign::signed_number;
use record::{Date, Fraction, Position, Record};

// What the first number of a field says: absent, or which of its kinds it is.
#[derive(Drop)]
pub enum Kind {
    Absent,
    First,
    Second,
    Third,
    Unknown,
}

fn kind_of(n: u32) -> Kind
    ensures { result ≡ kind_of n }
{
    match n {
        0 => Kind::Absent,
        1 => Kind::First,
        2 => Kind::Second,
        3 => Kind::Third,
        _ => Kind::Unknown,
    }
}

fn date_at(n: &[u32]) -> Option<Date>
    requires { length n.now ≡ size }
    ensures { result ≡ date_at n.now }
{
    match kind_of(n[3]) {
        Kind::Absent => None,
        Kind::First => Some(Date::Full {
            year: n[4],
            month: n[5],
            day: n[6],
        }),
        Kind::Second => Some(Date::DayOfYear(n[7])),
        Kind::Third => None,
        Kind::Unknown => None,
    }
}

fn fraction_from(kind: u32, value: u32) -> Option<Fraction>
    ensures { result ≡ fraction_in (kind_of kind) value }
{
    match kind_of(kind) {
        Kind::Absent => None,
        Kind::First => Some(Fraction::Thousandths(value)),
        Kind::Second => Some(Fraction::TenMillionths(value)),
        Kind::Third => Some(Fraction::Hundredths(value)),
        Kind::Unknown => None,
    }
}

fn channel_from(kind: u32, number: u32) -> Option<u32>
    ensures { result ≡ channel_in (kind_of kind) number }
{
    match kind_of(kind) {
        Kind::Absent => None,
        Kind::First => Some(number),
        Kind::Second => None,
        Kind::Third => None,
        Kind::Unknown => None,
    }
}

// An array, since the compiler would repeat a match on a kind in all that the writers do with the flag. Four elements are laid out at once.
fn flag_from(kind: u32) -> Option<bool>
    ensures { result ≡ flag_in (kind_of kind) }
{
    let flags = [None, Some(false), Some(true), None];
    if 2 < kind {
        return None;
    }
    flags[kind as usize]
}

fn sign_fits(sign: u32, magnitude: u32) -> bool
    ensures { result ≡ sign_fits sign magnitude }
{
    (sign <= 1) & (magnitude <= 2147483647)
}

// A minus on zero is dropped.
fn signed_from(sign: u32, magnitude: u32) -> i32
    requires { sign_fits sign magnitude ≡ true }
    ensures { result ≡ signed_in sign magnitude }
{
    signed_number(sign == 1, magnitude)
}

fn offset_fits(n: &[u32]) -> bool
    requires { length n.now ≡ size }
    ensures { result ≡ offset_fits n.now }
{
    match n[18] {
        0 => true,
        1 => sign_fits(n[19], n[20]),
        _ => false,
    }
}

fn offset_at(n: &[u32]) -> Option<i32>
    requires { (length n.now ≡ size) × (offset_fits n.now ≡ true) }
    ensures { result ≡ offset_at n.now }
{
    match kind_of(n[18]) {
        Kind::Absent => None,
        Kind::First => Some(signed_from(n[19], n[20])),
        Kind::Second => None,
        Kind::Third => None,
        Kind::Unknown => None,
    }
}

// The signs and magnitudes of a position that is there.
fn signs_fit(n: &[u32]) -> bool
    requires { length n.now ≡ size }
    ensures { result ≡ signs_fit n.now }
{
    sign_fits(n[22], n[23]) & sign_fits(n[24], n[25])
}

#[tactic(auto, using(crate::proofs::OneKind::neither_fits), unfolding(crate::specs::Decode::kind_of))]
fn position_fits(n: &[u32]) -> bool
    requires { length n.now ≡ size }
    ensures { result ≡ position_fits n.now }
{
    match n[21] {
        0 => true,
        1 => signs_fit(n),
        2 => signs_fit(n),
        _ => false,
    }
}

fn position_at(n: &[u32]) -> Option<Position>
    requires { (length n.now ≡ size) × (position_fits n.now ≡ true) }
    ensures { result ≡ position_at n.now }
{
    match kind_of(n[21]) {
        Kind::Absent => None,
        Kind::First => Some(Position::Degrees {
            latitude: signed_from(n[22], n[23]),
            longitude: signed_from(n[24], n[25]),
            altitude: n[26],
        }),
        Kind::Second => Some(Position::Minutes {
            latitude: signed_from(n[22], n[23]),
            longitude: signed_from(n[24], n[25]),
        }),
        Kind::Third => None,
        Kind::Unknown => None,
    }
}

fn is_flat(n: &[u32]) -> bool
    requires { length n.now ≡ size }
    ensures { result ≡ is_flat n.now }
{
    (n[3] <= 2)
        & (n[8] <= 3)
        & (n[10] <= 1)
        & (n[12] <= 2)
        & (n[13] <= 2)
        & (n[14] <= 2)
        & (n[15] <= 2)
        & (n[16] <= 2)
        & (n[17] <= 2)
        & (n[27] <= 2)
        & (n[28] <= 2)
        & offset_fits(n)
        & position_fits(n)
}

fn record_at(n: &[u32]) -> Record
    requires { (length n.now ≡ size) × ((offset_fits n.now ≡ true) × (position_fits n.now ≡ true)) }
    ensures { result ≡ record_at n.now }
{
    Record {
        hour: n[0],
        minute: n[1],
        second: n[2],
        date: date_at(n),
        fraction: fraction_from(n[8], n[9]),
        channel: channel_from(n[10], n[11]),
        sync: flag_from(n[12]),
        fix: flag_from(n[13]),
        utc: flag_from(n[14]),
        summer: flag_from(n[15]),
        change: flag_from(n[16]),
        leap: flag_from(n[17]),
        offset: offset_at(n),
        position: position_at(n),
        dsp: flag_from(n[27]),
        lsp: flag_from(n[28]),
    }
}

// The record of 29 numbers, or refusal 7.
pub fn record_of(n: &[u32]) -> Result<Record, Refusal>
    ensures { result ≡ record_of n.now }
{
    if n.len() != SIZE {
        return Err(Refusal::BadRecord);
    }
    if !is_flat(n) {
        return Err(Refusal::BadRecord);
    }
    Ok(record_at(n))
}
