//! Reads and writes of a file of the system, of which each call may move a part.
ghost use Rattle.std.specs.Prelude.{◌≤◌, length, IfOk};

use std::io;
use std::os::unix::fs::FileExt;

/// Reads the file's bytes from `at` on until `out` is full or the file ends, and answers how many.
pub fn read_from<F: FileExt>(file: &F, at: u64, out: &mut [u8]) -> io::Result<usize>
    ensures { IfOk result (λ n. n ≤ length out.new) }
{
    let mut count = 0;
    while count < out.len() {
        let more = file.read_at(&mut out[count..], at.saturating_add(count as u64))?;
        if more == 0 {
            break;
        }
        count += more;
    }
    Ok(count)
}

/// Writes all bytes from `at` on.
pub fn write_to<F: FileExt>(file: &F, at: u64, bytes: &[u8]) -> io::Result<()> {
    file.write_all_at(bytes, at)
}
