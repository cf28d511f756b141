//! What the answers of readers and writers tell in numbers and values.
ghost use Rattle.std.specs.Prelude.{◌≡◌};
ghost use Rattle.record.specs.Answers.{number_in, read_record, written_length};

use crate::Record;
use crate::refusal::Refusal;

/// The number of the refusal, 0 for none.
pub fn number_in<T: Drop>(answer: Result<T, Refusal>) -> u32
    ensures { result ≡ number_in answer }
{
    match answer {
        Ok(_) => 0,
        Err(refusal) => u32::from(refusal),
    }
}

/// The record that was read: a refused read has the empty record.
pub fn record_in(reading: Result<Record, Refusal>) -> Record
    ensures { result ≡ read_record reading }
{
    reading.unwrap_or_default()
}

/// The bytes that were written: a refused write has length 0.
pub fn length_in(writing: Result<usize, Refusal>) -> usize
    ensures { result ≡ written_length writing }
{
    writing.unwrap_or_default()
}
