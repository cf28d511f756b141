// The last line that the program prints.
ghost use Rattle.std.specs.Prelude.{◌≡◌, ◌≤◌};
ghost use Rattle.report.specs.Summary.{Ended, places_of};

use record::refusal::Refusal;

// How many digits a number has: 20 at the most, which hold every u64.
fn places(n: u64) -> usize
    ensures { (result ≡ places_of n) × (result ≤ 20) }
{
    let mut rest = n;
    let mut k = 1;
    while k < 20 {
        if rest < 10 {
            return k;
        }
        rest = rest / 10;
        k += 1;
    }
    k
}

// `end bytes=35 telegrams=1`
pub fn write_end(bytes: u64, telegrams: u64, out: &mut [u8]) -> Result<usize, Refusal>
    ensures { Ended bytes telegrams result out.old out.new }
{
    let b = places(bytes);
    let t = places(telegrams);
    let key = 10 + b;
    let count = key + 11;
    let end = count + t;
    if out.len() <= end {
        return Err(Refusal::ShortBuffer);
    }
    spelling::put_bytes(out, 0, b"end bytes=");
    spelling::put_count(out, 10, b, bytes);
    spelling::put_bytes(out, key, b" telegrams=");
    spelling::put_count(out, count, t, telegrams);
    spelling::put_byte(out, end, b'\n');
    Ok(end + 1)
}
