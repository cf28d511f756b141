// A read of the stream: its records reported, and its last bytes carried to the next one.
ghost use Rattle.std.specs.Prelude.{◌≡◌, ◌+◌, min};
ghost use Rattle.report.specs.Piece.{ReportedPiece};

use crate::carry::carry_over;
use crate::records::write_records;
use record::refusal::Refusal;

/// How many telegrams were found, how many bytes tell them, and how many bytes are carried to the next piece.
#[derive(Clone, Copy, Debug, PartialEq, Eq)]
pub struct PieceReport {
    pub telegrams: usize,
    pub bytes: usize,
    pub carried: usize,
}

// How many bytes of the buffer are filled, whatever the numbers.
fn filled(carried: usize, got: usize, room: usize) -> usize
    ensures { result ≡ min (carried + got) room }
{
    if room <= carried {
        return room;
    }
    if room - carried <= got {
        return room;
    }
    carried + got
}

// The buffer begins with the bytes carried from the piece before, and behind them stand those just read. The records of all of them are
// written to `out`, and the last n-1 bytes go to the head of the buffer.
pub fn report_piece(
    form: u32,
    carried: usize,
    got: usize,
    buffer: &mut [u8],
    out: &mut [u8],
) -> Result<PieceReport, Refusal>
    ensures { ReportedPiece form carried got result buffer.old out.old buffer.new out.new }
{
    let end = filled(carried, got, buffer.len());
    let report = write_records(form, &buffer[..end], out)?;
    Ok(PieceReport {
        telegrams: report.telegrams,
        bytes: report.bytes,
        carried: carry_over(form, buffer, end),
    })
}
