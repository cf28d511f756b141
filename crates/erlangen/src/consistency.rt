//! What the string tells twice agrees.
ghost use Rattle.std.specs.Prelude.{◌≡◌, true, length};
ghost use Rattle.forms.specs.Fields.Offset.{in_minutes};
ghost use Rattle.forms.specs.Fields.Position.{degrees};
ghost use Rattle.forms.specs.Fields.Time.{leap_consistent};
ghost use Rattle.forms.specs.Form.{signs_consistent, values_by};
ghost use Rattle.forms.specs.Serial.{erlangen};

// `L` stands exactly in second 60.
pub(crate) fn leap_agrees(s: &[u8]) -> bool
    requires { length s.now ≡ 66 }
    ensures { result ≡ leap_consistent true (values_by erlangen s.now) }
{
    if places::number_at(s, 20, 2) == 60 {
        places::is_at(s, 38, b'L')
    } else {
        places::is_at(s, 38, b' ')
    }
}

// No minus, S or W stands on a zero.
pub(crate) fn signs_agree(s: &[u8]) -> bool
    requires { length s.now ≡ 66 }
    ensures { result ≡ signs_consistent in_minutes degrees (values_by erlangen s.now) }
{
    places::sign_agrees(s, 24, b'+', places::minutes_at(s, 25))
        & places::sign_agrees(s, 48, b'N', places::degrees_at(s, 40))
        & places::sign_agrees(s, 58, b'E', places::degrees_at(s, 50))
}
