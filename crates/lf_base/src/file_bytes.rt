//! The bytes of a file in memory.
ghost use Rattle.std.specs.Prelude.{◌≡◌, ◌+◌, ◌≤◌, length};
ghost use Rattle.lf_base.specs.FileBytes.{written};

/// Puts a piece in place of the bytes from `at` on, which are as many.
pub fn overwrite(bytes: &mut [u8], at: usize, piece: &[u8])
    requires { at + length piece.now ≤ length bytes.old }
    ensures { bytes.new ≡ written at piece.now bytes.old }
{
    bytes[at..at + piece.len()].copy_from_slice(piece);
}
