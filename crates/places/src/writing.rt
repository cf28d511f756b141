// The tests of a writer before it stores.
ghost use Rattle.std.specs.Prelude.{◌≡◌};
ghost use Rattle.places.specs.Admitted.{admitted};

use record::refusal::Refusal;

// Refusals 7, 8, 9 and 10 in this order, else the number of bytes that are written.
pub fn admitted(
    good: bool,
    carried: bool,
    expressible: bool,
    size: usize,
    room: usize,
) -> Result<usize, Refusal>
    ensures { result ≡ admitted good carried expressible size room }
{
    if !good {
        return Err(Refusal::BadRecord);
    }
    if !carried {
        return Err(Refusal::MissingField);
    }
    if !expressible {
        return Err(Refusal::NotExpressible);
    }
    if room < size {
        return Err(Refusal::ShortBuffer);
    }
    Ok(size)
}
