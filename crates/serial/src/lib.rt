// The serial strings by the numbers of their forms: an arm in each function for each line of `serialForms`, in its order.
#![tactic(auto)]

ghost use Rattle.std.specs.Prelude.{◌≡◌};
ghost use Rattle.forms.specs.Forms.{WroteAs, form_kind_of, read_as, serial_forms};
ghost use Rattle.forms.specs.Valid.{length_of};
ghost use Rattle.serial.specs.Shape.{shape_of, shaped};

use record::Record;
use record::refusal::Refusal;

// The bytes of a form's strings, the byte that they start with and have nowhere else, and the one that they end with.
#[derive(Clone, Copy)]
pub struct Shape {
    pub length: usize,
    pub start: u8,
    pub end: u8,
}

// No string of a serial form is longer.
pub const LONGEST: usize = 66;

fn shaped(length: usize, start: u8, end: u8) -> Shape
    ensures { result ≡ shaped length start end }
{
    Shape { length, start, end }
}

// All 0 where there is no such form.
pub fn shape_of(form: u32) -> Shape
    ensures { result ≡ shape_of form }
{
    match form {
        1 => shaped(32, 2, 3),
        2 => shaped(31, b'C', b'\n'),
        3 => shaped(66, 2, 3),
        4 => shaped(32, b'>', b'\r'),
        5 => shaped(16, b'X', b'\r'),
        6 => shaped(16, 1, b'\n'),
        7 => shaped(24, b'T', b'\n'),
        10 => shaped(29, 2, 3),
        12 => shaped(65, b'$', b'\n'),
        _ => shaped(0, 0, 0),
    }
}

pub fn length_of(form: u32) -> usize
    ensures { result ≡ length_of form }
{
    shape_of(form).length
}

// Each reader's answer is returned from its own arm: where the arms join, the records would be copied field by field.
pub fn read(form: u32, s: &[u8]) -> Result<Record, Refusal>
    ensures { result ≡ read_as (form_kind_of serial_forms form) s.now }
{
    match form {
        1 => {
            return standard::read(s);
        }
        2 => {
            return capture::read(s);
        }
        3 => {
            return erlangen::read(s);
        }
        4 => {
            return spa::read(s);
        }
        5 => {
            return racal::read(s);
        }
        6 => {
            return sysplex::read(s);
        }
        7 => {
            return computime::read(s);
        }
        10 => {
            return sat::read(s);
        }
        12 => {
            return rmc::read(s);
        }
        _ => {}
    }
    Err(Refusal::UnknownForm)
}

pub fn write(form: u32, r: Record, out: &mut [u8]) -> Result<usize, Refusal>
    ensures { WroteAs (form_kind_of serial_forms form) r result out.old out.new }
{
    match form {
        1 => standard::write(r, out),
        2 => capture::write(r, out),
        3 => erlangen::write(r, out),
        4 => spa::write(r, out),
        5 => racal::write(r, out),
        6 => sysplex::write(r, out),
        7 => computime::write(r, out),
        10 => sat::write(r, out),
        12 => rmc::write(r, out),
        _ => Err(Refusal::UnknownForm),
    }
}
