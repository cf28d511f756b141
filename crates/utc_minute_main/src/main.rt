//! A program over the example: prints what some telegrams tell, a line for each. `rt run` runs it, and `rt ci` compares what it prints with the file stdout.
#![tactic(auto)]

ghost use Rattle.std.specs.Prelude.{OnOk};
ghost use Rattle.std.specs.Io.KnownBytes.{Appends};
ghost use Rattle.utc_minute_main.specs.Line.{line_of};

use record::refusal::Refusal;
use std::io;
use std::io::Write;

fn print<W: Write>(writer: &mut W, minute: Result<Option<u32>, Refusal>) -> io::Result<()>
    ensures { OnOk result (Appends (W.contents writer.old) (W.contents writer.new) (line_of minute)) }
{
    match minute {
        Ok(Some(n)) => writeln!(writer, "{n}"),
        Ok(None) => writeln!(writer, "absent"),
        Err(why) => {
            let number = u32::from(why);
            writeln!(writer, "refused {number}")
        }
    }
}

fn main(rt: HostRuntime) -> io::Result<()> {
    let mut out = rt.stdout();
    print(
        &mut out,
        utc_minute::minute_told(
            3,
            b"\x0228.07.45; 5; 13:56:19; -03:42; # S A  ; 33.8688S 151.2093E  431m\x03",
        ),
    )?;
    print(
        &mut out,
        utc_minute::minute_told(
            3,
            b"\x0201.01.24; 1; 00:30:00; +01:00; #*     ; 47.3500N   8.0625E  431m\x03",
        ),
    )?;
    print(&mut out, utc_minute::minute_told(5, b"XGU000229000000\r"))?;
    print(&mut out, utc_minute::minute_told(5, b"XGU000230000000\r"))?;
    print(&mut out, utc_minute::minute_told(0, b""))
}
