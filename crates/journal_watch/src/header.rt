//! The header of a rollback journal (SQLite file format, section 3).
ghost use Rattle.std.specs.Prelude.{◌≡◌, ◌≤◌, length, true, take, nat_eq};
ghost use Rattle.std.specs.List.{starts_with};
ghost use Rattle.lf_base.specs.FileBytes.{written};
ghost use Rattle.journal_watch.specs.Journal.{magic, has_header};

use lf_base::overwrite;
use lf_sqlite_pages::Blocks;

const MAGIC: [u8; 8] = [0xd9, 0xd5, 0x05, 0xf9, 0x20, 0xa1, 0x63, 0xd7];

const HEADER_SIZE: u64 = 28;

/// Whether bytes begin with the magic of a journal header.
fn begins_with_magic(bytes: &[u8]) -> bool
    ensures { result ≡ starts_with nat_eq bytes.now magic }
{
    bytes.starts_with(&MAGIC)
}

/// The first eight bytes of a file.
fn front_of(file: &Blocks) -> [u8; 8]
    requires { 8 ≤ length file.now.bytes }
    ensures { result ≡ take 8 file.now.bytes }
{
    let mut front = [0u8; 8];
    // All eight are there.
    file.read(0, &mut front);
    front
}

/// Whether a file has a whole journal header.
pub fn has_header(file: &Blocks) -> bool
    ensures { result ≡ has_header file.now.bytes }
{
    file.len() >= HEADER_SIZE && begins_with_magic(&front_of(file))
}

/// The first eight bytes of a file as a write would leave them.
fn front_after_write(file: &Blocks, at: u64, bytes: &[u8]) -> [u8; 8]
    requires { 8 ≤ length file.now.bytes }
    ensures { result ≡ take 8 (written at bytes.now file.now.bytes) }
{
    let mut front = front_of(file);
    if at < 8 {
        let at = at as usize;
        let (reached, _) = bytes.split_at(bytes.len().min(8 - at));
        overwrite(&mut front, at, reached);
    }
    front
}

/// Whether a file that has a journal header keeps it through a write.
pub fn keeps_header(file: &Blocks, at: u64, bytes: &[u8]) -> bool
    requires { has_header file.now.bytes ≡ true }
    ensures { result ≡ has_header (written at bytes.now file.now.bytes) }
{
    begins_with_magic(&front_after_write(file, at, bytes))
}
