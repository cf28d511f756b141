// The writer: each line's own writer is lent the buffer from the current column onward.
ghost use Rattle.std.specs.Prelude.{◌≤◌, length};
ghost use Rattle.forms.specs.Block.{block_of, first_edition};
ghost use Rattle.forms.specs.Form.{Wrote};
ghost use Rattle.forms.specs.Encode.{encode};
ghost use Rattle.block_lines.specs.Stores.{Laid};
ghost use Rattle.block.specs.Lines.{Put, lines_of};

use block_lines::channel::write_channel;
use block_lines::date::write_date;
use block_lines::flag::{Flag, write_flag};
use block_lines::fraction::write_fraction;
use block_lines::offset::write_offset;
use block_lines::position::write_position;
use block_lines::time::write_time;
use record::Record;
use record::refusal::Refusal;

// The first five lines; each column is named by the line that begins there. There is a call for each line: in a loop over their numbers
// the compiler would spell every number of the record before the first line.
fn write_first(r: Record, out: &mut [u8]) -> usize
    requires { 64 ≤ length out.old }
    ensures { Laid (lines_of r 0 5) (encode r) result out.old out.new × (result ≤ 64) }
{
    let time = write_date(r, out);
    let fraction = time + write_time(r, &mut out[time..]);
    let channel = fraction + write_fraction(r, &mut out[fraction..]);
    let sync = channel + write_channel(r, &mut out[channel..]);
    sync + write_flag(Flag::Sync, b"sync=", r, &mut out[sync..])
}

// The next five.
fn write_middle(r: Record, out: &mut [u8]) -> usize
    requires { 47 ≤ length out.old }
    ensures { Laid (lines_of r 5 5) (encode r) result out.old out.new × (result ≤ 47) }
{
    let utc = write_flag(Flag::Fix, b"fix=", r, out);
    let summer = utc + write_flag(Flag::Utc, b"utc=", r, &mut out[utc..]);
    let change = summer + write_flag(Flag::Summer, b"summer=", r, &mut out[summer..]);
    let leap = change + write_flag(Flag::Change, b"change=", r, &mut out[change..]);
    leap + write_flag(Flag::Leap, b"leap=", r, &mut out[leap..])
}

// The last four.
fn write_last(r: Record, out: &mut [u8]) -> usize
    requires { 64 ≤ length out.old }
    ensures { Laid (lines_of r 10 4) (encode r) result out.old out.new × (result ≤ 64) }
{
    let position = write_offset(r, out);
    let dsp = position + write_position(r, &mut out[position..]);
    let lsp = dsp + write_flag(Flag::Dsp, b"dsp=", r, &mut out[dsp..]);
    lsp + write_flag(Flag::Lsp, b"lsp=", r, &mut out[lsp..])
}

/// Writes the lines of a record, good or not, at the head of the buffer, and answers how many bytes they have: 118 to 174 of a good
/// record. Where there are fewer than 175 bytes, which hold the lines of every record, nothing is written and the answer is 0.
pub fn put(r: Record, out: &mut [u8]) -> usize
    ensures { Put r result out.old out.new }
{
    // Behind this one test the compiler finds that every store has room.
    if out.len() < 175 {
        return 0;
    }
    let fix = write_first(r, out);
    let offset = fix + write_middle(r, &mut out[fix..]);
    offset + write_last(r, &mut out[offset..])
}

/// Writes the block of a record at the head of the buffer, and answers how many bytes it has. A record that is not good is refused with
/// `BadRecord`, a buffer that is too short for its block with `ShortBuffer`; then no byte is changed.
#[inline(never)]
pub fn write(r: Record, out: &mut [u8]) -> Result<usize, Refusal>
    ensures { Wrote (block_of first_edition r) r result out.old out.new }
{
    if r.is_good() {
        // The lines go to a buffer of their own first, since their number of bytes is known only behind the last.
        let mut block = [0u8; 175];
        let n = put(r, &mut block);
        if out.len() < n {
            return Err(Refusal::ShortBuffer);
        }
        spelling::put_bytes(out, 0, &block[..n]);
        Ok(n)
    } else {
        Err(Refusal::BadRecord)
    }
}
