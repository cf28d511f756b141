// The search for C programs.
ghost use Rattle.lindenscoop.specs.Search.{SearchedAs};

use crate::buffers::{TOO_SHORT, record_fits};
use record::Record;

/// The first valid string at or after the start, its place and its record.
pub fn lindenscoop_search_numbers(
    form: u32,
    bytes: &[u8],
    start: usize,
    place: &mut usize,
    numbers: &mut [u32],
) -> u32
    ensures { SearchedAs form bytes.now start numbers.old result place.new numbers.new }
{
    if !record_fits(numbers) {
        *place = 0;
        return TOO_SHORT;
    }
    // One match, so that no part of the answer is copied before it is stored.
    match search::search(form, bytes, start) {
        Ok(found) => {
            *place = found.at;
            let _ = flat_record::put_record(found.told, numbers);
            0
        }
        Err(refusal) => {
            *place = 0;
            let _ = flat_record::put_record(Record::empty(), numbers);
            u32::from(refusal)
        }
    }
}
