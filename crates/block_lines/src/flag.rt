// The lines of the yes or no fields.
ghost use Rattle.std.specs.Prelude.{◌≡◌, ◌+◌, ◌≤◌, length};
ghost use Rattle.forms.specs.Encode.{encode};
ghost use Rattle.block_lines.specs.Flags.{flag_in, flag_read, flag_slot, with_flag};
ghost use Rattle.block_lines.specs.Reading.{word_layout};
ghost use Rattle.block_lines.specs.Stores.{Laid, flag_text};

use crate::line::{has_word, put_word};
use crate::state::State;
use record::Record;

/// The yes or no fields of a record.
#[derive(Clone, Copy, Debug, PartialEq, Eq)]
pub enum Flag {
    Sync,
    Fix,
    Utc,
    Summer,
    Change,
    Leap,
    Dsp,
    Lsp,
}

#[tactic(auto, unfolding(crate::specs::Flags::flag_in))]
fn flag_of(flag: Flag, r: Record) -> Option<bool>
    ensures { result ≡ flag_in (flag_slot flag) r }
{
    match flag {
        Flag::Sync => r.sync,
        Flag::Fix => r.fix,
        Flag::Utc => r.utc,
        Flag::Summer => r.summer,
        Flag::Change => r.change,
        Flag::Leap => r.leap,
        Flag::Dsp => r.dsp,
        Flag::Lsp => r.lsp,
    }
}

// The record with this field.
#[tactic(auto, unfolding(crate::specs::Flags::with_flag))]
fn with_flag(flag: Flag, told: Option<bool>, r: Record) -> Record
    ensures { result ≡ with_flag (flag_slot flag) told r }
{
    match flag {
        Flag::Sync => Record { sync: told, ..r },
        Flag::Fix => Record { fix: told, ..r },
        Flag::Utc => Record { utc: told, ..r },
        Flag::Summer => Record { summer: told, ..r },
        Flag::Change => Record { change: told, ..r },
        Flag::Leap => Record { leap: told, ..r },
        Flag::Dsp => Record { dsp: told, ..r },
        Flag::Lsp => Record { lsp: told, ..r },
    }
}

/// Reads the line of a yes or no field under its key, which ends in `=`, at the head of the bytes.
#[tactic(auto, unfolding(crate::specs::Flags::flag_read))]
#[inline(never)]
pub fn read_flag(flag: Flag, key: &[u8], s: &[u8], before: State) -> Option<(usize, State)>
    ensures { result ≡ flag_read key.now (flag_slot flag) s.now before }
{
    let k = key.len();
    if has_word(key, b"-", s) {
        return Some((k + 2, before));
    }
    if has_word(key, b"no", s) {
        let known = with_flag(flag, Some(false), before.known);
        return Some((k + 3, State { known, ..before }));
    }
    if has_word(key, b"yes", s) {
        let known = with_flag(flag, Some(true), before.known);
        return Some((k + 4, State { known, ..before }));
    }
    None
}

/// Writes the line of a yes or no field under its key, which ends in `=`, at the head of the buffer, and answers how many bytes it has.
pub fn write_flag(flag: Flag, key: &[u8], r: Record, out: &mut [u8]) -> usize
    ensures { Laid (word_layout key.now (flag_text (flag_in (flag_slot flag) r))) (encode r) result out.old out.new × (result ≤ length key.now + 4) }
{
    match flag_of(flag, r) {
        None => put_word(key, b"-", out),
        Some(false) => put_word(key, b"no", out),
        Some(true) => put_word(key, b"yes", out),
    }
}
