// The line of the channel.
ghost use Rattle.std.specs.Prelude.{◌≡◌, [], ◌≤◌, get_or};
ghost use Rattle.forms.specs.Block.{channel_line};
ghost use Rattle.forms.specs.Fields.Channel.{channel_choice};
ghost use Rattle.forms.specs.Encode.{encode};
ghost use Rattle.block_lines.specs.Reading.{line_read};
ghost use Rattle.block_lines.specs.Stores.{Laid};

use crate::line::{has_number, has_word, put_number, put_word};
use crate::state::State;
use record::Record;

/// Reads the line of the channel at the head of the bytes.
#[tactic(auto, unfolding(crate::specs::Reading::decoded, crate::specs::Reading::has_any, crate::specs::Reading::line_read, crate::specs::Reading::onto, forms::specs::Block::variant_at, forms::specs::Carries::carries_of, forms::specs::Places::has, forms::specs::Places::layout_width, forms::specs::Places::values, forms::specs::Fields::Channel::decode_channel))]
#[inline(never)]
pub fn read_channel(s: &[u8], before: State) -> Option<(usize, State)>
    ensures { result ≡ line_read channel_line s.now before }
{
    if has_word(b"channel=", b"-", s) {
        return Some((10, before));
    }
    if has_number(b"channel=", 1, s) {
        let channel = Some(places::number_at(s, 8, 1));
        let known = Record {
            channel,
            ..before.known
        };
        return Some((10, State { known, ..before }));
    }
    None
}

/// Writes the line of the channel at the head of the buffer, and answers how many bytes it has.
pub fn write_channel(r: Record, out: &mut [u8]) -> usize
    ensures { Laid (get_or channel_line (channel_choice r.channel) []) (encode r) result out.old out.new × (result ≤ 10) }
{
    match r.channel {
        None => put_word(b"channel=", b"-", out),
        Some(n) => put_number(b"channel=", 1, n, out),
    }
}
