//! The sign at 64 by its rule.
ghost use Rattle.std.specs.Prelude.{◌≡◌};
ghost use Rattle.forms.specs.Fields.Offset.{encode_minus, told_by};
ghost use Rattle.frame.specs.Layouts.{minus_by};

use record::sign::SignRule;

// From a sign of 1 to a minus, and back for an offset that is not zero.
pub(crate) fn minus_by(rule: SignRule, one: bool) -> bool
    ensures { result ≡ minus_by rule one }
{
    match rule {
        SignRule::OneBelow => one,
        SignRule::OneAbove => !one,
    }
}

// The sign of a zero is 0 under both rules.
pub(crate) fn sign_of(rule: SignRule, offset: Option<i32>) -> u32
    ensures { result ≡ encode_minus (told_by rule offset) }
{
    if minus_by(rule, fields::is_minus(offset)) & (fields::minutes_of(offset) != 0) {
        1
    } else {
        0
    }
}
