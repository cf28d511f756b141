// What is carried from a piece of the stream to the next one.
ghost use Rattle.std.specs.Prelude.{◌≡◌, ◌+◌, ◌≤◌, min, length, drop};
ghost use Rattle.std.proofs.Math.Seq.{paste};
ghost use Rattle.report.specs.Carry.{Carried};

// Moves k bytes from a place to the head of the buffer. The first byte goes first, so that none is overwritten before it is moved.
fn move_to_head(buffer: &mut [u8], from: usize, k: usize)
    requires { from + k ≤ length buffer.old }
    ensures { buffer.new ≡ paste buffer.old 0 (drop from buffer.old) k }
{
    let mut i = 0;
    while i < k {
        buffer[i] = buffer[from + i];
        i += 1;
    }
}

// The last n-1 of the buffer's first `end` bytes go to its head, and their number is returned: a string that has begun there may end in
// the next piece.
pub fn carry_over(form: u32, buffer: &mut [u8], end: usize) -> usize
    ensures { Carried form end result buffer.old buffer.new }
{
    let n = serial::length_of(form);
    if n == 0 {
        return 0;
    }
    let filled = end.min(buffer.len());
    let k = (n - 1).min(filled);
    move_to_head(buffer, filled - k, k);
    k
}
