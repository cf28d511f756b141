// The runs of heard seconds for C programs.
ghost use Rattle.std.specs.Prelude.{◌≡◌};
ghost use Rattle.lindenscoop.specs.AddSecond.{AddedAs, added_numbers, record_given};

use racks::{Added, Row};
use record::Record;
use record::answer::{number_in, record_in};

// A record as its numbers.
#[repr(C)]
#[derive(Drop)]
pub struct RecordNumbers {
    pub numbers: [u32; flat_record::SIZE],
}

// The number of the refusal, 0 for none, and the number of rows in use.
#[repr(C)]
#[derive(Drop)]
pub struct AddedNumbers {
    pub answer: u32,
    pub used: u32,
}

// Numbers that are no record give the empty one, which tells no second.
fn record_given(given: RecordNumbers) -> Record
    ensures { result ≡ record_given given.numbers }
{
    record_in(flat_record::record_of(&given.numbers))
}

fn added_numbers(added: Added) -> AddedNumbers
    ensures { result ≡ added_numbers added }
{
    AddedNumbers {
        answer: number_in(added.outcome),
        used: added.used,
    }
}

// Puts the second of a rack's record into the runs. The table is lent on; record and answer cross by value, so that nothing else is lent.
pub fn lindenscoop_add_rack_second_numbers(
    rows: &mut [Row],
    used: u32,
    rack: u32,
    given: RecordNumbers,
) -> AddedNumbers
    ensures { AddedAs rows.old used rack given.numbers result rows.new }
{
    added_numbers(racks::add(rows, used, rack, record_given(given)))
}
