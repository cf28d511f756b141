// The line of the date.
ghost use Rattle.std.specs.Prelude.{◌≡◌, [], ◌≤◌, get_or};
ghost use Rattle.forms.specs.Block.{date_line};
ghost use Rattle.forms.specs.Fields.Date.{date_choice};
ghost use Rattle.forms.specs.Places.{shape};
ghost use Rattle.forms.specs.Slots.{Values, ordinal};
ghost use Rattle.forms.specs.Encode.{encode};
ghost use Rattle.block_lines.specs.Reading.{line_read};
ghost use Rattle.block_lines.specs.Stores.{Laid};

use crate::line::{has_word, put_word};
use crate::state::State;
use record::{Date, Record};

// `date=24-02-29`
#[tactic(auto, unfolding(forms::specs::Places::shape))]
fn has_full_date(s: &[u8]) -> bool
    ensures { result ≡ shape (get_or date_line 1 []) 0 s.now }
{
    places::text_at(s, 0, b"date=") & places::pairs_at(s, 5, b'-') & places::is_at(s, 13, b'\n')
}

// `date=day-060`
#[tactic(auto, unfolding(forms::specs::Places::shape))]
fn has_day_of_year(s: &[u8]) -> bool
    ensures { result ≡ shape (get_or date_line 2 []) 0 s.now }
{
    places::text_at(s, 0, b"date=")
        & places::text_at(s, 5, b"day-")
        & places::digits_at(s, 9, 3)
        & places::is_at(s, 12, b'\n')
}

/// Reads the line of the date at the head of the bytes.
#[tactic(auto, unfolding(crate::specs::Reading::decoded, crate::specs::Reading::has_any, crate::specs::Reading::line_read, crate::specs::Reading::onto, forms::specs::Block::variant_at, forms::specs::Carries::carries_of, forms::specs::Places::has, forms::specs::Places::layout_width, forms::specs::Places::values, forms::specs::Fields::Date::decode_date))]
#[inline(never)]
pub fn read_date(s: &[u8], before: State) -> Option<(usize, State)>
    ensures { result ≡ line_read date_line s.now before }
{
    if has_word(b"date=", b"-", s) {
        return Some((7, before));
    }
    if has_full_date(s) {
        let date = Some(Date::Full {
            year: places::number_at(s, 5, 2),
            month: places::number_at(s, 8, 2),
            day: places::number_at(s, 11, 2),
        });
        let known = Record {
            date,
            ..before.known
        };
        return Some((14, State { known, ..before }));
    }
    if has_day_of_year(s) {
        let date = Some(Date::DayOfYear(places::number_at(s, 9, 3)));
        let known = Record {
            date,
            ..before.known
        };
        return Some((13, State { known, ..before }));
    }
    None
}

// `date=24-02-29`
#[tactic(auto, unfolding(places::specs::Stores::stores, forms::specs::Places::layout_width))]
fn put_full_date(r: Record, out: &mut [u8]) -> usize
    ensures { Laid (get_or date_line 1 []) (encode r) result out.old out.new }
{
    spelling::put_bytes(out, 0, b"date=");
    places::put_pairs(
        out,
        5,
        b'-',
        fields::year_of(r.date),
        fields::month_of(r.date),
        fields::day_of(r.date),
    );
    spelling::put_byte(out, 13, b'\n');
    14
}

// `date=day-060`
#[tactic(auto, unfolding(places::specs::Stores::stores, forms::specs::Places::layout_width))]
fn put_day_of_year(n: u32, out: &mut [u8]) -> usize
    ensures { (v : Values) → v ordinal ≡ n → Laid (get_or date_line 2 []) v result out.old out.new }
{
    spelling::put_bytes(out, 0, b"date=");
    spelling::put_bytes(out, 5, b"day-");
    spelling::put_digits(out, 9, 3, n);
    spelling::put_byte(out, 12, b'\n');
    13
}

/// Writes the line of the date at the head of the buffer, and answers how many bytes it has.
pub fn write_date(r: Record, out: &mut [u8]) -> usize
    ensures { Laid (get_or date_line (date_choice r.date) []) (encode r) result out.old out.new × (result ≤ 14) }
{
    match r.date {
        None => put_word(b"date=", b"-", out),
        Some(Date::Full { .. }) => put_full_date(r, out),
        Some(Date::DayOfYear(n)) => put_day_of_year(n, out),
    }
}
