// The names that C programs link with: each export calls the function of the same name of crates/lindenscoop, whose clauses it has.
// bindings/c/include/lindenscoop.h declares them.
#![tactic(auto)]

ghost use Rattle.calendar.specs.Answers.{day_number_in, full_year_in};
ghost use Rattle.lindenscoop.specs.AddSecond.{AddedAs};
ghost use Rattle.lindenscoop.specs.Calendar.{NumberedAs};
ghost use Rattle.lindenscoop.specs.Index.{MarkedAs};
ghost use Rattle.lindenscoop.specs.Listener.{FedAllAs, FedAs, StartedAs};
ghost use Rattle.lindenscoop.specs.Search.{SearchedAs};
ghost use Rattle.lindenscoop.specs.Telegrams.{ReadAs, WrittenAs};

use lindenscoop::add_second::{AddedNumbers, RecordNumbers};
use racks::Row;

// Puts the second of a rack's record into the runs.
#[unsafe(no_mangle)]
pub extern "C" fn lindenscoop_add_rack_second_numbers(
    rows: &mut [Row],
    used: u32,
    rack: u32,
    given: RecordNumbers,
) -> AddedNumbers
    ensures { AddedAs rows.old used rack given.numbers result rows.new }
{
    lindenscoop::add_second::lindenscoop_add_rack_second_numbers(rows, used, rack, given)
}

// The year with its century that the digits `yy` name.
#[unsafe(no_mangle)]
pub extern "C" fn lindenscoop_full_year_raw(yy: u32, year: &mut u32) -> u32
    ensures { NumberedAs (full_year_in yy) result year.new }
{
    lindenscoop::calendar_raw::lindenscoop_full_year_raw(yy, year)
}

// The days from 1 January 1980 to a date.
#[unsafe(no_mangle)]
pub extern "C" fn lindenscoop_days_since_1980_raw(
    yy: u32,
    month: u32,
    day: u32,
    days: &mut u32,
) -> u32
    ensures { NumberedAs (day_number_in yy month day) result days.new }
{
    lindenscoop::calendar_raw::lindenscoop_days_since_1980_raw(yy, month, day, days)
}

// Marks each byte that completes a string with 1, any other with 0.
#[unsafe(no_mangle)]
pub extern "C" fn lindenscoop_mark_raw(form: u32, bytes: &[u8], marks: &mut [u8]) -> u32
    ensures { MarkedAs form bytes.now marks.old result marks.new }
{
    lindenscoop::index::lindenscoop_mark_raw(form, bytes, marks)
}

// A new listener.
#[unsafe(no_mangle)]
pub extern "C" fn lindenscoop_start_raw(form: u32, state: &mut [u8]) -> u32
    ensures { StartedAs form state.old result state.new }
{
    lindenscoop::listener_raw::lindenscoop_start_raw(form, state)
}

// One byte; the record is changed where one is handed out.
#[unsafe(no_mangle)]
pub extern "C" fn lindenscoop_feed_numbers(state: &mut [u8], byte: u8, numbers: &mut [u32]) -> u32
    ensures { FedAs state.old byte numbers.old result state.new numbers.new }
{
    lindenscoop::listener_raw::lindenscoop_feed_numbers(state, byte, numbers)
}

// Bytes one after the other, up to the first that is answered by anything but nothing.
#[unsafe(no_mangle)]
pub extern "C" fn lindenscoop_feed_all_numbers(
    state: &mut [u8],
    bytes: &[u8],
    used: &mut usize,
    numbers: &mut [u32],
) -> u32
    ensures { FedAllAs state.old bytes.now numbers.old result
        state.new used.new numbers.new }
{
    lindenscoop::listener_raw::lindenscoop_feed_all_numbers(state, bytes, used, numbers)
}

// The first valid string at or after the start, its place and its record.
#[unsafe(no_mangle)]
pub extern "C" fn lindenscoop_search_numbers(
    form: u32,
    bytes: &[u8],
    start: usize,
    place: &mut usize,
    numbers: &mut [u32],
) -> u32
    ensures { SearchedAs form bytes.now start numbers.old result place.new numbers.new }
{
    lindenscoop::search_raw::lindenscoop_search_numbers(form, bytes, start, place, numbers)
}

// The record of a string.
#[unsafe(no_mangle)]
pub extern "C" fn lindenscoop_read_numbers(form: u32, input: &[u8], numbers: &mut [u32]) -> u32
    ensures { ReadAs form input.now numbers.old result numbers.new }
{
    lindenscoop::telegrams::lindenscoop_read_numbers(form, input, numbers)
}

// The string of the record at the head of the numbers.
#[unsafe(no_mangle)]
pub extern "C" fn lindenscoop_write_numbers(
    form: u32,
    numbers: &[u32],
    out: &mut [u8],
    written: &mut usize,
) -> u32
    ensures { WrittenAs form numbers.now out.old result out.new written.new }
{
    lindenscoop::telegrams::lindenscoop_write_numbers(form, numbers, out, written)
}
