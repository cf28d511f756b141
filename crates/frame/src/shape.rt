//! What stands at each place of a frame, in pieces.
ghost use Rattle.std.specs.Prelude.{◌≡◌};
ghost use Rattle.forms.specs.Places.{shape};
ghost use Rattle.frame.specs.Layouts.{date_layout, time_layout, zone_layout};

use crate::groups::{bits_at, pair_at};

// 0 to 29: seconds, minutes and hours.
pub(crate) fn has_time(s: &[u8]) -> bool
    ensures { result ≡ shape time_layout 0 s.now }
{
    places::is_at(s, 0, 2)
        & pair_at(s, 1, 4, 0, 3)
        & places::is_at(s, 9, 2)
        & pair_at(s, 10, 4, 0, 3)
        & places::is_at(s, 18, 0)
        & places::is_at(s, 19, 2)
        & pair_at(s, 20, 4, 0, 2)
        & places::text_at(s, 27, b"\0\0")
        & places::is_at(s, 29, 2)
}

// 30 to 59: day of year and year.
pub(crate) fn has_date(s: &[u8]) -> bool
    ensures { result ≡ shape date_layout 30 s.now }
{
    pair_at(s, 30, 4, 0, 4)
        & places::is_at(s, 39, 2)
        & bits_at(s, 40, 2)
        & places::text_at(s, 42, b"\0\0\0\0\0\0\0")
        & places::is_at(s, 49, 2)
        & pair_at(s, 50, 4, 0, 4)
        & places::is_at(s, 59, 2)
}

// 60 to 79: lsp, the deleted second, dsp, summer time, the offset's sign, hours and half hour, TFOM and parity.
pub(crate) fn has_zone(s: &[u8]) -> bool
    ensures { result ≡ shape zone_layout 60 s.now }
{
    bits_at(s, 60, 1)
        & bits_at(s, 61, 1)
        & bits_at(s, 62, 1)
        & bits_at(s, 63, 1)
        & bits_at(s, 64, 1)
        & bits_at(s, 65, 4)
        & places::is_at(s, 69, 2)
        & places::letter_at(s, 70, b"\0\x01")
        & bits_at(s, 71, 4)
        & bits_at(s, 75, 1)
        & places::text_at(s, 76, b"\0\0\0")
        & places::is_at(s, 79, 2)
}
