// One reader and one writer for all forms, by their numbers.
#![tactic(auto)]

ghost use Rattle.std.specs.Prelude.{◌≡◌, eqb};
ghost use Rattle.cond.specs.Pick.{pick};
ghost use Rattle.record.specs.declared.sign.SignRule.TheVariants.{OneAbove, OneBelow};
ghost use Rattle.forms.specs.Forms.{WroteAs, all_forms, form_kind_of, is_known, read_form};

use record::Record;
use record::refusal::Refusal;
use record::sign::SignRule;

// The rule of a frame's number. Both frames have one call: with a call for each, strings of every form took longer (docs/BENCHMARK.md).
fn sign_rule(form: u32) -> SignRule
    ensures { result ≡ pick (eqb form 8) OneAbove OneBelow }
{
    if form == 8 {
        SignRule::OneAbove
    } else {
        SignRule::OneBelow
    }
}

// Whether there is a form of this number.
pub fn is_form(form: u32) -> bool
    ensures { result ≡ is_known (form_kind_of all_forms form) }
{
    match form {
        8 | 11 => true,
        9 => true,
        _ => 0 < serial::length_of(form),
    }
}

pub fn read(form: u32, input: &[u8]) -> Result<Record, Refusal>
    ensures { result ≡ read_form form input.now }
{
    match form {
        8 | 11 => frame::read(sign_rule(form), input),
        9 => block::read(input),
        _ => serial::read(form, input),
    }
}

pub fn write(form: u32, r: Record, out: &mut [u8]) -> Result<usize, Refusal>
    ensures { WroteAs (form_kind_of all_forms form) r result out.old out.new }
{
    match form {
        8 | 11 => frame::write(sign_rule(form), r, out),
        9 => block::write(r, out),
        _ => serial::write(form, r, out),
    }
}
