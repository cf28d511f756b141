//! The rows of a frame written out.
ghost use Rattle.std.specs.Prelude.{◌≡◌, ◌++◌, ◌+◌, ◌≤◌, length, drop};
ghost use Rattle.std.proofs.lemmas.List.Edits.{sets};
ghost use Rattle.frame.specs.Tens.{joined};

fn put_row(out: &mut [u8], at: usize, row: [u8; 10])
    requires { at + 10 ≤ length out.old }
    ensures { (out.new ≡ sets out.old at row) × (length row ≡ 10) }
{
    spelling::put_bytes(out, at, &row);
}

// Writes the rows out, one behind the other.
pub(crate) fn put_rows(rows: [[u8; 10]; 10], out: &mut [u8])
    requires { 100 ≤ length out.old }
    ensures { out.new ≡ joined rows ++ drop 100 out.old }
{
    let mut i = 0;
    while i < 10 {
        put_row(out, i * 10, rows[i]);
        i += 1;
    }
}
