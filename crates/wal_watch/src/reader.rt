//! Bytes read out of a file for a scan: behind its end there are zeros.
ghost use Rattle.std.specs.Prelude.{◌≡◌, ◌+◌, ◌≤◌, ℕ, length, take, drop};
ghost use Rattle.lf_base.specs.FileBytes.{resized};
ghost use Rattle.lf_base.specs.Endian.{be32_at};

use lf_base::be32_at;
use lf_sqlite_pages::Blocks;

/// Fills `out` with the bytes from a place on.
pub fn fill(blocks: &Blocks, place: usize, out: &mut [u8])
    ensures { (len : ℕ) → place + length out.old ≤ len → out.new ≡ take (length out.old) (drop place (resized len blocks.now.bytes)) }
{
    out.fill(0);
    // However many are there: zeros stand for the others.
    blocks.read(place as u64, out);
}

/// The big-endian number of the four bytes from a place on.
pub fn number_at(blocks: &Blocks, place: usize) -> u32
    ensures { (len : ℕ) → place + 4 ≤ len → result ≡ be32_at place (resized len blocks.now.bytes) }
{
    let mut four = [0; 4];
    fill(blocks, place, &mut four);
    be32_at(&four, 0)
}
