//! The fraction of a record: there and of its kind, and its number, 0 where it is absent or of another kind.
ghost use Rattle.std.specs.Prelude.{◌≡◌};
ghost use Rattle.forms.specs.Fields.Fraction.{encode_hundredths, encode_ten_millionths, encode_thousandths, has_fraction, hundredths, ten_millionths, thousandths};

use record::Fraction;

pub fn has_thousandths(fraction: Option<Fraction>) -> bool
    ensures { result ≡ has_fraction thousandths fraction }
{
    matches!(fraction, Some(Fraction::Thousandths(_)))
}

pub fn has_ten_millionths(fraction: Option<Fraction>) -> bool
    ensures { result ≡ has_fraction ten_millionths fraction }
{
    matches!(fraction, Some(Fraction::TenMillionths(_)))
}

pub fn has_hundredths(fraction: Option<Fraction>) -> bool
    ensures { result ≡ has_fraction hundredths fraction }
{
    matches!(fraction, Some(Fraction::Hundredths(_)))
}

pub fn thousandths_of(fraction: Option<Fraction>) -> u32
    ensures { result ≡ encode_thousandths fraction }
{
    match fraction {
        Some(Fraction::Thousandths(n)) => n,
        _ => 0,
    }
}

pub fn ten_millionths_of(fraction: Option<Fraction>) -> u32
    ensures { result ≡ encode_ten_millionths fraction }
{
    match fraction {
        Some(Fraction::TenMillionths(n)) => n,
        _ => 0,
    }
}

pub fn hundredths_of(fraction: Option<Fraction>) -> u32
    ensures { result ≡ encode_hundredths fraction }
{
    match fraction {
        Some(Fraction::Hundredths(n)) => n,
        _ => 0,
    }
}
