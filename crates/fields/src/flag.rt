//! A yes or no field of a record: there or not.
ghost use Rattle.std.specs.Prelude.{◌≡◌, true};
ghost use Rattle.forms.specs.Fields.Flag.{has_flag};

pub fn has_flag(flag: Option<bool>) -> bool
    ensures { result ≡ has_flag true flag }
{
    flag.is_some()
}
