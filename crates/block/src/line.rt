// The lines by their numbers: each has its own reader.
ghost use Rattle.std.specs.Prelude.{◌≡◌, [], ◌<◌, get_or};
ghost use Rattle.forms.specs.Block.{block_lines};
ghost use Rattle.block_lines.specs.Reading.{line_read};

use block_lines::channel::read_channel;
use block_lines::date::read_date;
use block_lines::flag::{Flag, read_flag};
use block_lines::fraction::read_fraction;
use block_lines::offset::read_offset;
use block_lines::position::read_position;
use block_lines::state::State;
use block_lines::time::read_time;

// Line i at the head of a lent part, behind lines that told `before`. A call of its own, as the reader of each line is: inlined into the loop
// over the lines, the state would be copied field by field at each of them.
#[inline(never)]
pub(crate) fn read_line(i: usize, s: &[u8], before: State) -> Option<(usize, State)>
    requires { i < 14 }
    ensures { result ≡ line_read (get_or block_lines i []) s.now before }
{
    match i {
        0 => read_date(s, before),
        1 => read_time(s, before),
        2 => read_fraction(s, before),
        3 => read_channel(s, before),
        4 => read_flag(Flag::Sync, b"sync=", s, before),
        5 => read_flag(Flag::Fix, b"fix=", s, before),
        6 => read_flag(Flag::Utc, b"utc=", s, before),
        7 => read_flag(Flag::Summer, b"summer=", s, before),
        8 => read_flag(Flag::Change, b"change=", s, before),
        9 => read_flag(Flag::Leap, b"leap=", s, before),
        10 => read_offset(s, before),
        11 => read_position(s, before),
        12 => read_flag(Flag::Dsp, b"dsp=", s, before),
        _ => read_flag(Flag::Lsp, b"lsp=", s, before),
    }
}
