// Prints the time strings of a stream on standard input: a first line with the form's number, then the stream.
#![tactic(auto)]

ghost use Rattle.std.specs.Prelude.{List, ◌≡◌, ℕ, ◌+◌, ◌-◌, ◌^◌, ◌/◌, ◌≤◌, ◌<◌, length, take, IfOk, OnOk, OnErr, IfSome};
ghost use Rattle.std.specs.Io.KnownBytes.{Appends, Consumes, IsAtEnd, ReadConsumes};
ghost use Rattle.forms.specs.Valid.{length_of};
ghost use Rattle.report.specs.Piece.{ReportedPiece, piece_in, reported};
ghost use Rattle.report.specs.Printed.{printed, records_in};
ghost use Rattle.report.specs.Summary.{end_line};
ghost use Rattle.heard.specs.Answer.{answer_to};
ghost use Rattle.heard.specs.Counted.{Counted};
ghost use Rattle.heard.specs.Listened.{Listened, SomeTaken};
ghost use Rattle.heard.specs.Output.{Output};

use std::io;
use std::io::{Read, Write};

// What a piece brought.
#[derive(Drop)]
struct Printed {
    telegrams: usize,
    carried: usize,
}

// What the stream brought.
#[derive(Drop)]
struct Total {
    bytes: u64,
    telegrams: u64,
}

// Room for a piece.
fn input() -> [u8; 65536]
    ensures { 65536 ≡ length result }
{
    [0; 65536]
}

// Room for what a full buffer tells: 11 bytes for each of its bytes.
fn output() -> [u8; 720896]
    ensures { 720896 ≡ length result }
{
    [0; 720896]
}

// One read.
fn read_some<R: Read>(reader: &mut R, part: &mut [u8]) -> io::Result<usize>
    ensures inside { IfOk result (λ got. got ≤ length part.old) }
    ensures bytes { ReadConsumes (R.remaining reader.old) (R.remaining reader.new) result part.new }
{
    reader.read(part)
}

// Reads until the part is full or the input ends. Where a read fails, what was read before it is gone from the input.
fn read_full<R: Read>(reader: &mut R, part: &mut [u8]) -> io::Result<usize>
    ensures inside { IfOk result (λ n. n ≤ length part.new) }
    ensures bytes { IfOk result (λ n. Consumes (R.remaining reader.old) (R.remaining reader.new) (take n part.new)) }
    ensures end { IfOk result (λ n. n < length part.new → IsAtEnd (R.remaining reader.new)) }
    ensures err { OnErr result (SomeTaken (R.remaining reader.old) (R.remaining reader.new)) }
{
    let mut done = 0;
    while done < part.len() {
        let got = read_some(reader, &mut part[done..])?;
        if got == 0 {
            break;
        }
        done += got;
    }
    Ok(done)
}

// All that the program writes goes through here. Of a write that fails, std does not say how much of the text went out.
fn print<W: Write>(writer: &mut W, text: &[u8]) -> io::Result<()>
    requires { Output text.now }
    ensures { OnOk result (Appends (W.contents writer.old) (W.contents writer.new) text.now) }
{
    writer.write_all(text)
}

// All records of a piece go out in one write. Where it fails, the buffers are as the report left them.
fn print_piece<W: Write>(
    form: u32,
    carried: usize,
    got: usize,
    buffer: &mut [u8],
    out: &mut [u8],
    writer: &mut W,
) -> io::Result<Printed>
    requires { (0 < length_of form) × (length buffer.old ≤ length out.old / 11) }
    ensures reported { IfOk result (λ p. (bytes : ℕ) × ReportedPiece form carried got (reported p.telegrams bytes p.carried) buffer.old out.old buffer.new out.new) }
    ensures told { OnOk result (Appends (W.contents writer.old) (W.contents writer.new) (printed (records_in form (piece_in carried got buffer.old)))) }
    ensures err { OnErr result ((telegrams : ℕ) × (bytes : ℕ) × (k : ℕ) × ReportedPiece form carried got (reported telegrams bytes k) buffer.old out.old buffer.new out.new) }
{
    match report::report_piece(form, carried, got, buffer, out) {
        Ok(piece) => {
            print(writer, &out[..piece.bytes])?;
            Ok(Printed {
                telegrams: piece.telegrams,
                carried: piece.carried,
            })
        }
        Err(_) => Ok(Printed {
            telegrams: 0,
            carried: 0,
        }),
    }
}

// `left` counts down from more bytes than any stream has, so that the loop ends and no count runs over. Where a write fails nothing more
// is read.
fn listen<R: Read, W: Write>(form: u32, reader: &mut R, writer: &mut W) -> io::Result<Total>
    requires { 0 < length_of form }
    ensures counted { IfOk result (λ t. (carried : ℕ) × (buffer : List ℕ) × Counted form carried buffer t.bytes t.telegrams) }
    ensures listened { IfOk result (λ t. Listened form (R.remaining reader.old) (R.remaining reader.new) (W.contents writer.old) (W.contents writer.new) t.bytes t.telegrams) }
    ensures end { IfOk result (λ t. t.bytes < 2 ^ 64 - 65536 → IsAtEnd (R.remaining reader.new)) }
    ensures err { OnErr result (SomeTaken (R.remaining reader.old) (R.remaining reader.new)) }
{
    let mut buffer = input();
    let mut out = output();
    let mut carried = 0;
    let mut telegrams: u64 = 0;
    let mut left = u64::MAX;
    while 65536 <= left {
        let got = read_some(reader, &mut buffer[carried..])?;
        if got == 0 {
            break;
        }
        let p = print_piece(form, carried, got, &mut buffer, &mut out, writer)?;
        carried = p.carried;
        telegrams += p.telegrams as u64;
        left -= got as u64;
    }
    Ok(Total {
        bytes: u64::MAX - left,
        telegrams,
    })
}

// The last line, of what was read and counted.
fn print_end<W: Write>(bytes: u64, telegrams: u64, out: &mut [u8], writer: &mut W) -> io::Result<()>
    requires { (form : ℕ) × (carried : ℕ) × (buffer : List ℕ) × Counted form carried buffer bytes telegrams }
    ensures { 62 ≤ length out.old → OnOk result (Appends (W.contents writer.old) (W.contents writer.new) (end_line bytes telegrams)) }
{
    match report::write_end(bytes, telegrams, out) {
        Ok(n) => print(writer, &out[..n]),
        Err(_) => Ok(()),
    }
}

// It has 62 bytes at the most.
fn finish<W: Write>(bytes: u64, telegrams: u64, writer: &mut W) -> io::Result<()>
    requires { (form : ℕ) × (carried : ℕ) × (buffer : List ℕ) × Counted form carried buffer bytes telegrams }
    ensures { OnOk result (Appends (W.contents writer.old) (W.contents writer.new) (end_line bytes telegrams)) }
{
    let mut line = [0u8; 62];
    print_end(bytes, telegrams, &mut line, writer)
}

// All that the program does. Where a read or a write failed the last line is not written either.
fn run<R: Read, W: Write>(reader: &mut R, writer: &mut W) -> io::Result<()>
    ensures told { OnOk result (IfSome (R.remaining reader.old) (λ input. length input < 2 ^ 64 - 65536 → Appends (W.contents writer.old) (W.contents writer.new) (answer_to input))) }
    ensures err { OnErr result (SomeTaken (R.remaining reader.old) (R.remaining reader.new)) }
{
    let mut line = [0u8; 2];
    let n = read_full(reader, &mut line)?;
    let form = report::form_of(&line[..n]);
    if serial::length_of(form) == 0 {
        return print(writer, b"refused=1\n");
    }
    let total = listen(form, reader, writer)?;
    finish(total.bytes, total.telegrams, writer)
}

fn main(rt: HostRuntime) -> io::Result<()> {
    run(&mut rt.stdin(), &mut rt.stdout())
}
