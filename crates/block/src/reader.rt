// The reader: line by line, each lent the bytes from the end of the line before it onward.
ghost use Rattle.std.specs.Prelude.{◌≡◌};
ghost use Rattle.forms.specs.Block.{block_lines, first_edition, read_block};
ghost use Rattle.block.specs.Reading.{nothing_decoded, read_lines};
ghost use Rattle.block.specs.Reading.{validated_state};

use crate::line::read_line;
use block_lines::state::State;
use record::Record;
use record::refusal::Refusal;

// The last two tests: a number outside its range, and parts that disagree.
#[tactic(auto, unfolding(crate::specs::Reading::validated_state))]
fn validate(state: State) -> Result<Record, Refusal>
    ensures { result ≡ validated_state state }
{
    let told = state.known;
    if told.in_range() & (state.arc & (state.minutes < 60)) {
        if (state.zone & state.place) & told.zone_agrees() {
            Ok(told)
        } else {
            Err(Refusal::Disagreement)
        }
    } else {
        Err(Refusal::OutOfRange)
    }
}

// A wrong line ends the reading, and so do bytes that are left behind the last one.
fn read_lines(s: &[u8]) -> Result<Record, Refusal>
    ensures { result ≡ read_lines block_lines s.now 0 nothing_decoded }
{
    let mut state = State {
        known: Record::empty(),
        minutes: 0,
        zone: true,
        place: true,
        arc: true,
    };
    let mut at = 0;
    for i in 0..14 {
        let Some((size, next)) = read_line(i, &s[at..], state) else {
            return Err(Refusal::WrongByte);
        };
        at += size;
        state = next;
    }
    if at != s.len() {
        return Err(Refusal::WrongByte);
    }
    validate(state)
}

/// Reads a block: its record, or the first refusal of a length outside 118 to 174 bytes, a byte that no line has, a number outside its
/// range, and lines that disagree.
#[tactic(auto, using(crate::proofs::Answers::read_block_lem, crate::proofs::First::readable, crate::proofs::First::too_long, crate::proofs::First::too_short_lem))]
#[inline(never)]
pub fn read(s: &[u8]) -> Result<Record, Refusal>
    ensures { result ≡ read_block first_edition s.now }
{
    if s.len() < 118 {
        return Err(Refusal::WrongLength);
    }
    if 174 < s.len() {
        return Err(Refusal::WrongLength);
    }
    read_lines(s)
}
