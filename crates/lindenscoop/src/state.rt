// A listener in bytes that the caller owns: the ring, then `at`, `kept`, `distance` and `form`, one byte each, the last with the version of
// this layout.
ghost use Rattle.std.specs.Prelude.{◌≡◌, [], ◌∷◌, ◌++◌, ◌≤◌, drop, length, take};
ghost use Rattle.spelling.specs.Stored.{stored};
ghost use Rattle.lindenscoop.specs.State.{Small, Storable, form_in, listener_of, numbered, passing_in, ring_size, state_bytes, state_size};

use listener::{Listener, Moved};

// Where each part begins.
const AT: usize = 66;

const KEPT: usize = AT + 1;

const DISTANCE: usize = KEPT + 1;

const FORM: usize = DISTANCE + 1;

pub(crate) const STATE_BYTES: usize = FORM + 1;

// Version 1, in the high four bits of the form's byte.
const VERSION: u8 = 16;

// Inlined, as `listener_of` is: a call hands the ring back by one more copy.
#[inline(always)]
fn ring_of(s: &[u8]) -> [u8; AT]
    requires { state_size ≤ length s.now }
    ensures { result ≡ take ring_size s.now }
{
    let mut ring = [0; AT];
    ring.copy_from_slice(&s[..AT]);
    ring
}

fn wide(x: u8) -> usize
    ensures { result ≡ x }
{
    x as usize
}

fn wide_form(x: u8) -> u32
    ensures { result ≡ x }
{
    x as u32
}

// Takes the version out of the form's byte; where it is another one, what is left is no form's number.
fn form_in(s: &[u8]) -> u32
    requires { state_size ≤ length s.now }
    ensures { result ≡ form_in s.now }
{
    wide_form(s[FORM] ^ VERSION)
}

#[inline(always)]
pub(crate) fn listener_of(s: &[u8]) -> Listener
    requires { state_size ≤ length s.now }
    ensures { result ≡ listener_of s.now }
{
    Listener {
        bytes: ring_of(s),
        at: wide(s[AT]),
        kept: wide(s[KEPT]),
        distance: wide(s[DISTANCE]),
        form: form_in(s),
    }
}

fn ring_in(l: Listener) -> [u8; AT]
    ensures { (result ≡ l.bytes) × (length result ≡ ring_size) }
{
    l.bytes
}

// Stores the numbers behind the ring.
fn put_numbers(out: &mut [u8], at: usize, kept: usize, distance: usize, form: u32)
    requires { Small at kept distance form }
    ensures { out.new ≡ numbered at kept distance form out.old }
{
    spelling::put_byte(out, AT, at as u8);
    spelling::put_byte(out, KEPT, kept as u8);
    spelling::put_byte(out, DISTANCE, distance as u8);
    spelling::put_byte(out, FORM, (form as u8) ^ VERSION);
}

pub(crate) fn put_state(l: Listener, out: &mut [u8])
    requires { (state_size ≤ length out.old) × Storable l }
    ensures { out.new ≡ state_bytes l ++ drop state_size out.old }
{
    let ring = ring_in(l);
    spelling::put_bytes(out, 0, &ring);
    put_numbers(out, l.at, l.kept, l.distance, l.form);
}

// What a byte that ends no string leaves of the listener that stands in the bytes.
pub(crate) fn passing_in(s: &[u8], b: u8) -> Option<Moved>
    requires { state_size ≤ length s.now }
    ensures { result ≡ passing_in s.now b }
{
    let shape = serial::shape_of(form_in(s));
    listener::passing_of(shape, wide(s[AT]), wide(s[KEPT]), wide(s[DISTANCE]), b)
}

// Stores such a byte and what it leaves where the state stands.
pub(crate) fn move_on(s: &mut [u8], moved: Moved, b: u8)
    requires { (state_size ≤ length s.old) × Small moved.at moved.kept moved.distance (form_in s.old) }
    ensures { s.new ≡ numbered moved.at moved.kept moved.distance (form_in s.old) (stored s.old moved.place (b ∷ [])) }
{
    let form = form_in(s);
    spelling::put_byte(s, moved.place, b);
    put_numbers(s, moved.at, moved.kept, moved.distance, form);
}
