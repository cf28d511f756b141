// A ring of the last bytes fed. `at` is the place of the next byte, which is that of the oldest one.
ghost use Rattle.std.specs.Prelude.{◌≡◌, ◌+◌, ◌-◌, ◌≤◌, ◌<◌, length, set, take};
ghost use Rattle.listener.specs.Ring.{oldest_first, place_of, wrapped};
ghost use Rattle.serial.specs.Shape.{longest};

use serial::LONGEST;

// The place of a number below two rounds.
pub(crate) fn wrap(k: usize) -> usize
    requires { k < longest + longest }
    ensures { (result ≡ wrapped k) × (result < longest) }
{
    if k < LONGEST { k } else { k - LONGEST }
}

// Every number names a place.
pub(crate) fn place(at: usize) -> usize
    ensures { (result ≡ place_of at) × (result < longest) }
{
    if at < LONGEST { at } else { 0 }
}

pub(crate) fn with_byte(x: [u8; LONGEST], at: usize, b: u8) -> [u8; LONGEST]
    requires { at < longest }
    ensures { (result ≡ set x at b) × (length result ≡ longest) }
{
    let mut y = x;
    y[at] = b;
    y
}

// The n bytes from a place on, in a layout; what stands behind them is of no account.
pub(crate) fn in_order(y: [u8; LONGEST], from: usize, n: usize) -> [u8; LONGEST]
    requires { (from < longest) × (n ≤ longest) }
    ensures { take n result ≡ take n (oldest_first from y) }
{
    let mut z = [0u8; LONGEST];
    let mut i = 0;
    while i < n {
        z[i] = y[wrap(from + i)];
        i += 1;
    }
    z
}
