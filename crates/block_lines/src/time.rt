// The line of the time.
ghost use Rattle.std.specs.Prelude.{◌≡◌, [], ◌≤◌, get_or};
ghost use Rattle.forms.specs.Block.{time_line};
ghost use Rattle.forms.specs.Places.{shape};
ghost use Rattle.forms.specs.Encode.{encode};
ghost use Rattle.block_lines.specs.Reading.{line_read};
ghost use Rattle.block_lines.specs.Stores.{Laid};

use crate::state::State;
use record::Record;

// `time=23:59:60`
#[tactic(auto, unfolding(forms::specs::Places::shape))]
fn has_time(s: &[u8]) -> bool
    ensures { result ≡ shape (get_or time_line 0 []) 0 s.now }
{
    places::text_at(s, 0, b"time=") & places::pairs_at(s, 5, b':') & places::is_at(s, 13, b'\n')
}

/// Reads the line of the time at the head of the bytes.
#[tactic(auto, unfolding(crate::specs::Reading::decoded, crate::specs::Reading::has_any, crate::specs::Reading::line_read, crate::specs::Reading::onto, forms::specs::Block::variant_at, forms::specs::Carries::carries_of, forms::specs::Places::has, forms::specs::Places::layout_width, forms::specs::Places::values))]
#[inline(never)]
pub fn read_time(s: &[u8], before: State) -> Option<(usize, State)>
    ensures { result ≡ line_read time_line s.now before }
{
    if has_time(s) {
        let known = Record {
            hour: places::number_at(s, 5, 2),
            minute: places::number_at(s, 8, 2),
            second: places::number_at(s, 11, 2),
            ..before.known
        };
        return Some((14, State { known, ..before }));
    }
    None
}

/// Writes the line of the time at the head of the buffer, and answers how many bytes it has.
#[tactic(auto, unfolding(places::specs::Stores::stores, forms::specs::Places::layout_width))]
pub fn write_time(r: Record, out: &mut [u8]) -> usize
    ensures { Laid (get_or time_line 0 []) (encode r) result out.old out.new × (result ≤ 14) }
{
    spelling::put_bytes(out, 0, b"time=");
    places::put_pairs(out, 5, b':', r.hour, r.minute, r.second);
    spelling::put_byte(out, 13, b'\n');
    14
}
