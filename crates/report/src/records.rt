// The records of a piece of the stream, as the program prints them.
ghost use Rattle.std.specs.Prelude.{true, ◌≡◌, ◌≤◌, length, drop, ◌++◌};
ghost use Rattle.record.specs.Record.{is_good};
ghost use Rattle.report.specs.Printed.{WroteRecords, paragraph};

use record::Record;
use record::refusal::Refusal;

/// How many telegrams were found, and how many bytes tell them.
#[derive(Clone, Copy, Debug, PartialEq, Eq)]
pub struct Report {
    pub telegrams: usize,
    pub bytes: usize,
}

// A record as a block and an empty line.
fn put_paragraph(r: Record, out: &mut [u8]) -> usize
    requires { (is_good r ≡ true) × (175 ≤ length out.old) }
    ensures { (result ≡ length (paragraph r)) × (out.new ≡ paragraph r ++ drop result out.old) }
{
    let n = block::put(r, out);
    spelling::put_byte(out, n, b'\n');
    n + 1
}

// Every record of the piece. A string has 16 bytes at the least and is told in 175 at the most, so that 11 bytes for each byte of the
// piece are enough. No more than 175 are lent for a record: with a length that it knows the compiler leaves out every test of room.
pub fn write_records(form: u32, piece: &[u8], out: &mut [u8]) -> Result<Report, Refusal>
    ensures { WroteRecords form piece.now result out.old out.new }
{
    let n = serial::length_of(form);
    if n == 0 {
        return Err(Refusal::UnknownForm);
    }
    if out.len() / 11 < piece.len() {
        return Err(Refusal::ShortBuffer);
    }
    let mut telegrams = 0;
    let mut bytes = 0;
    let mut start = 0;
    while let Ok(found) = search::search(form, piece, start) {
        let end = bytes + 175;
        bytes += put_paragraph(found.told, &mut out[bytes..end]);
        telegrams += 1;
        start = found.at + n;
    }
    Ok(Report { telegrams, bytes })
}
