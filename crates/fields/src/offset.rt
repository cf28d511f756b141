//! The offset of a record: there, and its sign and magnitude.
ghost use Rattle.std.specs.Prelude.{◌≡◌, true};
ghost use Rattle.forms.specs.Fields.Offset.{encode_minutes, has_offset};
ghost use Rattle.fields.specs.Signs.{is_minus};

pub fn has_offset(offset: Option<i32>) -> bool
    ensures { result ≡ has_offset true offset }
{
    offset.is_some()
}

/// Whether local time is behind UTC.
pub fn is_minus(offset: Option<i32>) -> bool
    ensures { result ≡ is_minus offset }
{
    offset.is_some_and(|minutes| minutes < 0)
}

/// The minutes without their sign, 0 where there is no offset.
pub fn minutes_of(offset: Option<i32>) -> u32
    ensures { result ≡ encode_minutes offset }
{
    offset.unwrap_or(0).unsigned_abs()
}
