//! The bytes, digits and letters of the string, in pieces.
#![tactic(auto, unfolding(forms::specs::Places::shape))]

ghost use Rattle.std.specs.Prelude.{◌≡◌};
ghost use Rattle.forms.specs.Places.{shape};
ghost use Rattle.rmc.specs.Layouts.{date_layout, latitude_layout, longitude_layout, time_layout};

// `$GPRMC,hhmmss.ss,A,`
pub(crate) fn is_time(s: &[u8]) -> bool
    ensures { result ≡ shape time_layout 0 s.now }
{
    places::text_at(s, 0, b"$GPRMC,")
        & places::digits_at(s, 7, 2)
        & places::digits_at(s, 9, 2)
        & places::digits_at(s, 11, 2)
        & places::is_at(s, 13, b'.')
        & places::digits_at(s, 14, 2)
        & places::is_at(s, 16, b',')
        & places::letter_at(s, 17, b"VA")
        & places::is_at(s, 18, b',')
}

// `bbbb.bb,n,`
pub(crate) fn is_latitude(s: &[u8]) -> bool
    ensures { result ≡ shape latitude_layout 19 s.now }
{
    places::digits_at(s, 19, 2)
        & places::is_arc(s, 21)
        & places::is_at(s, 26, b',')
        & places::letter_at(s, 27, b"NS")
        & places::is_at(s, 28, b',')
}

// `lllll.ll,e`
pub(crate) fn is_longitude(s: &[u8]) -> bool
    ensures { result ≡ shape longitude_layout 29 s.now }
{
    places::digits_at(s, 29, 3)
        & places::is_arc(s, 32)
        & places::is_at(s, 37, b',')
        & places::letter_at(s, 38, b"EW")
}

// `,0.0,0.0,ddmmyy,0.0,E*`
pub(crate) fn is_date(s: &[u8]) -> bool
    ensures { result ≡ shape date_layout 39 s.now }
{
    places::text_at(s, 39, b",0.0,0.0,")
        & places::digits_at(s, 48, 2)
        & places::digits_at(s, 50, 2)
        & places::digits_at(s, 52, 2)
        & places::text_at(s, 54, b",0.0,E*")
}
