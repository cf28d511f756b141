//! The frame by value: ten rows of ten elements.
ghost use Rattle.std.specs.Prelude.{◌≡◌, true, ◌+◌, ◌%◌, ◌≤◌};
ghost use Rattle.cond.specs.Pick.{one_if, pick};
ghost use Rattle.record.specs.Record.{is_good, is_yes};
ghost use Rattle.forms.specs.Checksum.{with_checksum};
ghost use Rattle.forms.specs.Fields.Offset.{half_hour_of, encode_minutes};
ghost use Rattle.forms.specs.Encode.{encode};
ghost use Rattle.frame.specs.Tens.{quality_row, ten_rows, with_bits, with_pair, zone_row};

use crate::validation::seconds_of_day;
use record::Record;
use record::range::is_yes;

// A row that tells nothing.
const BLANK: [u8; 10] = [0, 0, 0, 0, 0, 0, 0, 0, 0, 2];

// The row with a number in so many elements from a place on.
fn with_bits(row: [u8; 10], at: usize, w: usize, n: u32) -> [u8; 10]
    ensures { result ≡ with_bits row at w n }
{
    let mut filled = row;
    spelling::put_bits(&mut filled, at, w, n);
    filled
}

// The row with two decimal digits, the low one in four elements from a place on, the high one in so many behind the next.
fn with_pair(row: [u8; 10], at: usize, high: usize, n: u32) -> [u8; 10]
    requires { at + 5 + high ≤ 10 }
    ensures { result ≡ with_pair row at high n }
{
    with_bits(with_bits(row, at, 4, n % 10), at + 5, high, n / 10 % 10)
}

// 1 for yes.
fn flag_element(flag: Option<bool>) -> u32
    ensures { result ≡ one_if (is_yes flag) }
{
    if is_yes(flag) { 1 } else { 0 }
}

// TFOM is 0 for sync yes, 15 for no.
fn tfom_of(sync: Option<bool>) -> u32
    ensures { result ≡ pick (is_yes sync) 0 15 }
{
    if is_yes(sync) { 0 } else { 15 }
}

// No half hour, one, or minutes that are neither.
pub(crate) fn half_hour_of(offset: Option<i32>) -> u32
    ensures { result ≡ half_hour_of (encode_minutes offset % 60) }
{
    let rest = fields::minutes_of(offset) % 60;
    if rest == 0 {
        return 0;
    }
    if rest == 30 {
        return 1;
    }
    2
}

// What is pending, summer time, and the offset with this sign.
fn zone_row(told: Record, sign: u32) -> [u8; 10]
    ensures { result ≡ zone_row sign (encode told) }
{
    let row = with_bits(BLANK, 0, 1, flag_element(told.lsp));
    let row = with_bits(row, 2, 1, flag_element(told.dsp));
    let row = with_bits(row, 3, 1, flag_element(told.summer));
    let row = with_bits(row, 4, 1, sign);
    with_bits(row, 5, 4, fields::minutes_of(told.offset) / 60)
}

// The half hour, TFOM and this parity.
fn quality_row(told: Record, parity: u32) -> [u8; 10]
    ensures { result ≡ quality_row (with_checksum (encode told) parity) }
{
    let row = with_bits(BLANK, 0, 1, half_hour_of(told.offset));
    let row = with_bits(row, 1, 4, tfom_of(told.sync));
    with_bits(row, 5, 1, parity)
}

// The frame of a record with this sign and this parity.
pub(crate) fn rows_of(told: Record, sign: u32, parity: u32) -> [[u8; 10]; 10]
    requires { is_good told ≡ true }
    ensures { result ≡ ten_rows sign (with_checksum (encode told) parity) }
{
    let day = fields::ordinal_of(told.date);
    let seconds = seconds_of_day(told.hour, told.minute, told.second);
    [
        with_pair([2, 0, 0, 0, 0, 0, 0, 0, 0, 2], 1, 3, told.second),
        with_pair(BLANK, 0, 3, told.minute),
        with_pair(BLANK, 0, 2, told.hour),
        with_pair(BLANK, 0, 4, day),
        with_bits(BLANK, 0, 2, day / 10 / 10 % 10),
        with_pair(BLANK, 0, 4, fields::year_of(told.date)),
        zone_row(told, sign),
        quality_row(told, parity),
        with_bits(BLANK, 0, 9, seconds % 512),
        with_bits(BLANK, 0, 8, seconds / 512 % 512),
    ]
}
