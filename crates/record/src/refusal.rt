//! Why an input, a record, a buffer, a state or a table is refused. No two refusals share a number.
ghost use Rattle.std.specs.Prelude.{◌≡◌};
ghost use Rattle.record.specs.Refusal.{number_of};

#[derive(Clone, Copy, Debug, PartialEq, Eq)]
pub enum Refusal {
    UnknownForm,
    WrongLength,
    WrongByte,
    OutOfRange,
    Disagreement,
    WrongChecksum,
    BadRecord,
    MissingField,
    NotExpressible,
    ShortBuffer,
    BadState,
    NotFound,
    Overlap,
    NoSecond,
    NoRow,
    NoRack,
    BadTable,
}

/// The number by which C, Python and the command name it; 0 names none.
impl From<Refusal> for u32 {
    ghost from_gives = { λ refusal n. n ≡ number_of refusal };

    fn from(refusal: Refusal) -> u32 {
        match refusal {
            Refusal::UnknownForm => 1,
            Refusal::WrongLength => 2,
            Refusal::WrongByte => 3,
            Refusal::OutOfRange => 4,
            Refusal::Disagreement => 5,
            Refusal::WrongChecksum => 6,
            Refusal::BadRecord => 7,
            Refusal::MissingField => 8,
            Refusal::NotExpressible => 9,
            Refusal::ShortBuffer => 10,
            Refusal::BadState => 11,
            Refusal::NotFound => 12,
            Refusal::Overlap => 13,
            Refusal::NoSecond => 14,
            Refusal::NoRow => 15,
            Refusal::NoRack => 16,
            Refusal::BadTable => 21,
        }
    }
}
