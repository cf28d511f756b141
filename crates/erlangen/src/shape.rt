//! The bytes, digits, letters and padding of the string, in pieces.
#![tactic(auto, unfolding(forms::specs::Places::shape))]

ghost use Rattle.std.specs.Prelude.{◌≡◌};
ghost use Rattle.forms.specs.Places.{shape};
ghost use Rattle.erlangen.specs.Layouts.{altitude_layout, date_layout, flags_layout, latitude_layout, leap_layout, longitude_layout, offset_layout, time_layout};

// `<STX>dd.mm.yy; w; `
pub(crate) fn is_date(s: &[u8]) -> bool
    ensures { result ≡ shape date_layout 0 s.now }
{
    places::is_at(s, 0, 2)
        & places::pairs_at(s, 1, b'.')
        & places::text_at(s, 9, b"; ")
        & places::digits_at(s, 11, 1)
        & places::text_at(s, 12, b"; ")
}

// `hh:mm:ss; `
pub(crate) fn is_time(s: &[u8]) -> bool
    ensures { result ≡ shape time_layout 14 s.now }
{
    places::pairs_at(s, 14, b':') & places::text_at(s, 22, b"; ")
}

// `voo:oo; `
pub(crate) fn is_offset(s: &[u8]) -> bool
    ensures { result ≡ shape offset_layout 24 s.now }
{
    places::letter_at(s, 24, b"+-")
        & places::digits_at(s, 25, 2)
        & places::is_at(s, 27, b':')
        & places::digits_at(s, 28, 2)
        & places::text_at(s, 30, b"; ")
}

// `acdfg`: sync, fix, summer, change, leap.
pub(crate) fn are_flags(s: &[u8]) -> bool
    ensures { result ≡ shape flags_layout 32 s.now }
{
    places::letter_at(s, 32, b"# ")
        & places::letter_at(s, 33, b"* ")
        & places::letter_at(s, 34, b" S")
        & places::letter_at(s, 35, b" !")
        & places::letter_at(s, 36, b" A")
}

// ` i;`
pub(crate) fn is_leap_second(s: &[u8]) -> bool
    ensures { result ≡ shape leap_layout 37 s.now }
{
    places::is_at(s, 37, b' ') & places::letter_at(s, 38, b" L") & places::is_at(s, 39, b';')
}

// `bbb.bbbbn `
pub(crate) fn is_latitude(s: &[u8]) -> bool
    ensures { result ≡ shape latitude_layout 40 s.now }
{
    places::padded_at(s, 40, 3)
        & places::is_at(s, 43, b'.')
        & places::digits_at(s, 44, 4)
        & places::letter_at(s, 48, b"NS")
        & places::is_at(s, 49, b' ')
}

// `lll.lllle `
pub(crate) fn is_longitude(s: &[u8]) -> bool
    ensures { result ≡ shape longitude_layout 50 s.now }
{
    places::padded_at(s, 50, 3)
        & places::is_at(s, 53, b'.')
        & places::digits_at(s, 54, 4)
        & places::letter_at(s, 58, b"EW")
        & places::is_at(s, 59, b' ')
}

// `hhhhm<ETX>`
pub(crate) fn is_altitude(s: &[u8]) -> bool
    ensures { result ≡ shape altitude_layout 60 s.now }
{
    places::padded_at(s, 60, 4) & places::text_at(s, 64, b"m\x03")
}
