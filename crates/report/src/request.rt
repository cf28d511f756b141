// The first line of the program's input.
ghost use Rattle.std.specs.Prelude.{◌≡◌};
ghost use Rattle.report.specs.Request.{form_of};

// The form that a first line asks for, 0 where it is a bad one: one digit that is the number of a serial form, and LF.
pub fn form_of(line: &[u8]) -> u32
    ensures { result ≡ form_of line.now }
{
    if line.len() != 2 {
        return 0;
    }
    if line[1] != b'\n' {
        return 0;
    }
    let b = line[0];
    if b < b'0' {
        return 0;
    }
    if b'9' < b {
        return 0;
    }
    let form = (b % 16) as u32;
    if serial::length_of(form) == 0 {
        return 0;
    }
    form
}
