// Reading and writing strings for C programs.
ghost use Rattle.lindenscoop.specs.Telegrams.{ReadAs, WrittenAs, WroteNumbers};

use crate::buffers::{TOO_SHORT, record_fits};
use record::Record;
use record::answer::{length_in, number_in};
use record::refusal::Refusal;

// An unknown form is refused before numbers that are no record.
fn write_numbers(form: u32, numbers: &[u32], out: &mut [u8]) -> Result<usize, Refusal>
    ensures { WroteNumbers form numbers.now result out.old out.new }
{
    match flat_record::record_of(numbers) {
        Ok(r) => codec::write(form, r, out),
        Err(x) => {
            if codec::is_form(form) {
                Err(x)
            } else {
                Err(Refusal::UnknownForm)
            }
        }
    }
}

/// The record of a string.
pub fn lindenscoop_read_numbers(form: u32, input: &[u8], numbers: &mut [u32]) -> u32
    ensures { ReadAs form input.now numbers.old result numbers.new }
{
    if !record_fits(numbers) {
        return TOO_SHORT;
    }
    // One match, as in search_raw.rt.
    match codec::read(form, input) {
        Ok(r) => {
            let _ = flat_record::put_record(r, numbers);
            0
        }
        Err(refusal) => {
            let _ = flat_record::put_record(Record::empty(), numbers);
            u32::from(refusal)
        }
    }
}

/// The string of the record at the head of the numbers.
pub fn lindenscoop_write_numbers(
    form: u32,
    numbers: &[u32],
    out: &mut [u8],
    written: &mut usize,
) -> u32
    ensures { WrittenAs form numbers.now out.old result out.new written.new }
{
    if !record_fits(numbers) {
        *written = 0;
        return TOO_SHORT;
    }
    let writing = write_numbers(form, &numbers[0..flat_record::SIZE], out);
    *written = length_in(writing);
    number_in(writing)
}
