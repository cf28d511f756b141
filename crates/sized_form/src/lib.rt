//! A form of one length: what such a form supplies, and the one reader and the one writer of them all.
#![tactic(auto)]

ghost use Rattle.std.specs.Prelude.{◌≡◌, ◌++◌, ℕ, true, length, drop};
ghost use Rattle.record.specs.Record.{is_good};
ghost use Rattle.forms.specs.Checksum.{checksums_hold};
ghost use Rattle.forms.specs.Decode.{decode};
ghost use Rattle.forms.specs.Encode.{encode};
ghost use Rattle.forms.specs.Form.{Form, Wrote, bytes_by, carries, consistent, is_expressible, ranges, read_by, values_by};
ghost use Rattle.forms.specs.Places.{shape};
ghost use Rattle.forms.specs.Required.{has_carried};
ghost use Rattle.places.specs.Admitted.{Storable};

use record::Record;
use record::refusal::Refusal;

/// A form whose strings all have one length. The ghost member `form` is its description; each method promises its part of it.
pub trait SizedForm {
    ghost form: { Self → Form };

    ghost SIZE: { ℕ };

    /// The bytes of a string.
    const SIZE: usize;

    /// Each place spells what it may.
    fn has_shape(&self, s: &[u8]) -> bool
        ensures { result ≡ shape (form self.now).layout 0 s.now };

    /// Each checksum is that of the bytes; a form without one asks none.
    fn checksum_holds(&self, s: &[u8]) -> bool
        requires { length s.now ≡ SIZE }
        ensures { result ≡ checksums_hold (form self.now).checksums s.now (values_by (form self.now) s.now) };

    /// What the string tells.
    fn decode(&self, s: &[u8]) -> Record
        requires { length s.now ≡ SIZE }
        ensures { result ≡ decode (carries (form self.now)) (values_by (form self.now) s.now) };

    /// Each number that is told is in its range.
    fn is_in_range(&self, s: &[u8], told: Record) -> bool
        requires size { length s.now ≡ SIZE }
        requires decoded { told ≡ decode (carries (form self.now)) (values_by (form self.now) s.now) }
        ensures { result ≡ ranges (carries (form self.now)) (values_by (form self.now) s.now) };

    /// What is told twice agrees, where all is in its range.
    fn agrees(&self, s: &[u8], told: Record) -> bool
        requires size { length s.now ≡ SIZE }
        requires decoded { told ≡ decode (carries (form self.now)) (values_by (form self.now) s.now) }
        requires ranged { ranges (carries (form self.now)) (values_by (form self.now) s.now) ≡ true }
        ensures { result ≡ consistent (carries (form self.now)) (values_by (form self.now) s.now) };

    /// Each field that the form carries is there and of its kind.
    fn has_carried(&self, told: Record) -> bool
        ensures { result ≡ has_carried (carries (form self.now)) told };

    /// Each letter has a word for the values of a good record.
    fn is_expressible(&self, told: Record) -> bool
        ensures { is_good told ≡ true → result ≡ is_expressible (form self.now).layout (encode told) };

    /// Stores the string at the head of the buffer.
    fn store(&self, told: Record, out: &mut [u8])
        requires { Storable (form self.now) told (length out.old) }
        ensures { out.new ≡ bytes_by (form self.now) (encode told) ++ drop SIZE out.old };

    ghost sized: { (f : Self) → (form f).size ≡ SIZE };
}

/// The record that the string tells: refusals 2, 3, 6, 4 and 5, tested in this order.
#[tactic(auto, unfolding(forms::specs::Form::read_by, forms::specs::Form::read_layout, forms::specs::Form::validated))]
pub fn read<F: SizedForm>(form: &F, s: &[u8]) -> Result<Record, Refusal>
    ensures { result ≡ read_by (F.form form.now) s.now }
{
    if s.len() != F::SIZE {
        return Err(Refusal::WrongLength);
    }
    if !form.has_shape(s) {
        return Err(Refusal::WrongByte);
    }
    if !form.checksum_holds(s) {
        return Err(Refusal::WrongChecksum);
    }
    let told = form.decode(s);
    if !form.is_in_range(s, told) {
        return Err(Refusal::OutOfRange);
    }
    if !form.agrees(s, told) {
        return Err(Refusal::Disagreement);
    }
    Ok(told)
}

/// Writes the string of the record at the head of the buffer, and hands back its bytes' number: refusals 7, 8, 9 and 10, tested in this
/// order. A refused write changes no byte.
pub fn write<F: SizedForm>(form: &F, told: Record, out: &mut [u8]) -> Result<usize, Refusal>
    ensures { Wrote (F.form form.now) told result out.old out.new }
{
    let size = places::admitted(
        told.is_good(),
        form.has_carried(told),
        form.is_expressible(told),
        F::SIZE,
        out.len(),
    )?;
    form.store(told, out);
    Ok(size)
}
