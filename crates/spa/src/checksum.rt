//! The sum `cc` of a string: the exclusive-or of the 29 bytes before it.
ghost use Rattle.std.specs.Prelude.{◌≡◌};
ghost use Rattle.forms.specs.Checksum.{checksum_of};
ghost use Rattle.forms.specs.Serial.{spa_checksum};

// The last colon counts too.
pub(crate) fn checksum_of(s: &[u8]) -> u32
    ensures { result ≡ checksum_of spa_checksum s.now }
{
    spelling::xor_of(places::part_of(s, 0, 29)) as u32
}
