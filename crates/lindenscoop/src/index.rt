// A listener run over a whole slice, for C programs.
ghost use Rattle.lindenscoop.specs.Index.{MarkedAs};

use record::answer::number_in;

// Marks each byte that completes a string with 1, any other with 0.
pub fn lindenscoop_mark_raw(form: u32, bytes: &[u8], marks: &mut [u8]) -> u32
    ensures { MarkedAs form bytes.now marks.old result marks.new }
{
    number_in(listener::mark(form, bytes, marks))
}
