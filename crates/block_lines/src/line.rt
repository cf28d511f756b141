// A line of the block at the head of a lent part: a key, a value and LF.
ghost use Rattle.std.specs.Prelude.{◌≡◌};
ghost use Rattle.forms.specs.Places.{shape};
ghost use Rattle.forms.specs.Slots.{Slot, Values};
ghost use Rattle.block_lines.specs.Reading.{number_layout, word_layout};
ghost use Rattle.block_lines.specs.Stores.{Laid};

// A line whose value is a word. Each writer of a line answers how many bytes it has.
pub(crate) fn put_word(key: &[u8], word: &[u8], out: &mut [u8]) -> usize
    ensures { (v : Values) → Laid (word_layout key.now word.now) v result out.old out.new }
{
    let k = key.len();
    let end = k + word.len();
    spelling::put_bytes(out, 0, key);
    spelling::put_bytes(out, k, word);
    spelling::put_byte(out, end, b'\n');
    end + 1
}

// A line whose value is a number of so many digits. The width is a u32, so that its sum with a length fits.
pub(crate) fn put_number(key: &[u8], width: u32, n: u32, out: &mut [u8]) -> usize
    ensures { (f : Slot) (v : Values) → v f ≡ n → Laid (number_layout key.now width f) v result out.old out.new }
{
    let k = key.len();
    let w = width as usize;
    let end = k + w;
    spelling::put_bytes(out, 0, key);
    spelling::put_digits(out, k, w, n);
    spelling::put_byte(out, end, b'\n');
    end + 1
}

// The line has this word.
pub(crate) fn has_word(key: &[u8], word: &[u8], s: &[u8]) -> bool
    ensures { result ≡ shape (word_layout key.now word.now) 0 s.now }
{
    let k = key.len();
    let end = k + word.len();
    places::text_at(s, 0, key) & places::text_at(s, k, word) & places::is_at(s, end, b'\n')
}

// The line has a number of so many digits.
pub(crate) fn has_number(key: &[u8], width: u32, s: &[u8]) -> bool
    ensures { (f : Slot) → result ≡ shape (number_layout key.now width f) 0 s.now }
{
    let k = key.len();
    let w = width as usize;
    places::text_at(s, 0, key) & places::digits_at(s, k, w) & places::is_at(s, k + w, b'\n')
}
