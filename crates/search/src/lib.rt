//! A search for the first valid string of a serial form in a lent slice.
#![tactic(auto)]

ghost use Rattle.std.specs.Prelude.{◌≡◌, ◌+◌, ◌≤◌, ◌<◌, length};
ghost use Rattle.forms.specs.Valid.{end_of, length_of, record_in, start_of, valid_of};
ghost use Rattle.stream.specs.Window.{window};
ghost use Rattle.search.specs.Answer.{finding_place, finding_record, search_of};

use record::Record;
use record::refusal::Refusal;

/// Where a string begins, and what it tells.
#[derive(Clone, Copy, Debug, PartialEq, Eq)]
pub struct Found {
    pub at: usize,
    pub told: Record,
}

/// The place that was found: a refused search has place 0.
pub fn place_in(finding: Result<Found, Refusal>) -> usize
    ensures { result ≡ finding_place finding }
{
    match finding {
        Ok(found) => found.at,
        Err(_) => 0,
    }
}

/// The record that was found: a refused search has the empty record.
pub fn record_in(finding: Result<Found, Refusal>) -> Record
    ensures { result ≡ finding_record finding }
{
    match finding {
        Ok(found) => found.told,
        Err(_) => Record::empty(),
    }
}

// The n bytes from a place. Inlined, the loop over the places would count along addresses that only the reader needs.
#[inline(never)]
fn part_at(s: &[u8], p: usize, n: usize) -> &[u8]
    requires { p + n ≤ length s.now }
    ensures { result.now ≡ window n s.now p }
{
    &s[p..p + n]
}

// The string at a place, read where its first and its last byte are those of the form.
fn read_at(form: u32, s: &[u8], p: usize, n: usize, first: u8, last: u8) -> Result<Record, Refusal>
    requires { (n ≡ length_of form) × ((first ≡ start_of form) × ((last ≡ end_of form) × ((0 < n) × (p + n ≤ length s.now)))) }
    ensures { record_in result ≡ valid_of form (window n s.now p) }
{
    if s[p] != first {
        return Err(Refusal::WrongByte);
    }
    let end = p + n;
    if s[end - 1] != last {
        return Err(Refusal::WrongByte);
    }
    serial::read(form, part_at(s, p, n))
}

/// The first valid string at or after the start. Refusal 1 where the form is no serial one, then 12 where there is no such string.
pub fn search(form: u32, s: &[u8], start: usize) -> Result<Found, Refusal>
    ensures { result ≡ search_of form s.now start }
{
    let shape = serial::shape_of(form);
    let n = shape.length;
    if n == 0 {
        return Err(Refusal::UnknownForm);
    }
    if s.len() < n {
        return Err(Refusal::NotFound);
    }
    for p in start..s.len() - n + 1 {
        if let Ok(told) = read_at(form, s, p, n, shape.start, shape.end) {
            return Ok(Found { at: p, told });
        }
    }
    Err(Refusal::NotFound)
}
