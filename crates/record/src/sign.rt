//! A signed number as the strings spell it: a sign and a magnitude.
ghost use Rattle.std.specs.Prelude.{◌≡◌, nat_abs};
ghost use Rattle.record.specs.Sign.{is_negative, signed_number};

/// Which numbers are told with a sign of 1.
#[derive(Clone, Copy, Debug, PartialEq, Eq)]
pub enum SignRule {
    /// those below zero
    OneBelow,
    /// those above zero: the number told is the opposite
    OneAbove,
}

pub fn is_negative(z: i32) -> bool
    ensures { result ≡ is_negative z }
{
    z < 0
}

/// The number without its sign; that of the least number too.
pub fn magnitude(z: i32) -> u32
    ensures { result ≡ nat_abs z }
{
    z.unsigned_abs()
}

/// Zero has no sign; a magnitude that no i32 has is read as 0.
#[tactic(auto, unfolding(crate::specs::Sign::signed_number))]
pub fn signed_number(negative: bool, n: u32) -> i32
    ensures { result ≡ signed_number negative n }
{
    if 2147483647 < n {
        return 0;
    }
    if negative { -(n as i32) } else { n as i32 }
}
