// An example over the library, to copy from: the minute of the day by UTC that a telegram tells.
// A telegram tells local time, and only some forms send its offset from UTC. Where none was sent, none is made up: the answer is then absent,
// also where the flag utc is yes. The library is used by its public functions, and the proofs rest on its contracts and theorems.
#![tactic(auto)]

ghost use Rattle.std.specs.Prelude.{true, ◌≡◌, ◌≤◌, ◌<◌, nat_abs};
ghost use Rattle.record.specs.Record.{is_good};
ghost use Rattle.utc_minute.specs.Minute.{minute_in, minute_told, utc_minute};

use record::Record;
use record::refusal::Refusal;
use record::sign::{is_negative, magnitude};

// The offset is local time minus UTC, so it is taken away, modulo the 1,440 minutes of a day. A private function may ask for what its caller
// knows: here the ranges by which no sum is too large for 32 bits.
fn utc_minute(local: u32, offset: i32) -> u32
    requires { (local < 1440) × (nat_abs offset ≤ 840) }
    ensures { result ≡ utc_minute local offset }
{
    let minutes = magnitude(offset);
    if is_negative(offset) {
        (local + minutes) % 1440
    } else {
        (local + (1440 - minutes)) % 1440
    }
}

// A good record is in these ranges.
fn minute_in(r: Record) -> Option<u32>
    requires { is_good r ≡ true }
    ensures { result ≡ minute_in r }
{
    Some(utc_minute(r.hour * 60 + r.minute, r.offset?))
}

/// The minute, `None` where the telegram tells no offset: no caller can take it for minute 0.
// A public function asks nothing of its caller: it answers for every form's number and all bytes. That what was read is a good record is
// proved (proofs/Good.antt) and not tested again.
#[tactic(auto, using(crate::proofs::Good::read_good))]
pub fn minute_told(form: u32, telegram: &[u8]) -> Result<Option<u32>, Refusal>
    ensures { result ≡ minute_told form telegram.now }
{
    let told = codec::read(form, telegram)?;
    Ok(minute_in(told))
}
