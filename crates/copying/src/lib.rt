// Bytes copied into a lent buffer: of a sheet that is joined to another, and of a word that is printed.
#![tactic(auto)]

ghost use Rattle.std.specs.Prelude.{◌≡◌, ◌+◌, ◌≤◌, length};
ghost use Rattle.laws.specs.Lent.{stored};

// Writes these bytes from `at` on.
pub fn put_bytes(out: &mut [u8], at: usize, piece: &[u8])
    requires { at + length piece.now ≤ length out.old }
    ensures { out.new ≡ stored at piece.now out.old }
{
    out[at..at + piece.len()].copy_from_slice(piece);
}
