//! The sum `hh` of a string: the exclusive-or of the 59 bytes between `$` and `*`.
ghost use Rattle.std.specs.Prelude.{◌≡◌};
ghost use Rattle.forms.specs.Checksum.{checksum_of};
ghost use Rattle.forms.specs.Serial.{rmc_checksum};

// Neither `$` nor `*` counts.
pub(crate) fn checksum_of(s: &[u8]) -> u32
    ensures { result ≡ checksum_of rmc_checksum s.now }
{
    spelling::xor_of(places::part_of(s, 1, 59)) as u32
}
