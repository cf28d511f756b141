// Room in the buffers that a caller lends.
ghost use Rattle.std.specs.Prelude.{◌≡◌};
ghost use Rattle.lindenscoop.specs.Buffers.{both_fit, record_fits, state_fits};

use crate::state::STATE_BYTES;

// The answer where there is none: refusal 10.
pub(crate) const TOO_SHORT: u32 = 10;

pub(crate) fn record_fits(numbers: &[u32]) -> bool
    ensures { result ≡ record_fits numbers.now }
{
    flat_record::SIZE <= numbers.len()
}

pub(crate) fn state_fits(state: &[u8]) -> bool
    ensures { result ≡ state_fits state.now }
{
    STATE_BYTES <= state.len()
}

pub(crate) fn both_fit(state: &[u8], numbers: &[u32]) -> bool
    ensures { result ≡ both_fit state.now numbers.now }
{
    (STATE_BYTES <= state.len()) & (flat_record::SIZE <= numbers.len())
}
