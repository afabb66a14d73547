//! The header of an index of a log without frames (SQLite, WAL-index format, section 2.1).
ghost use Rattle.std.specs.Prelude.{◌≡◌, ◌≤◌, length};
ghost use Rattle.shm_index.specs.Index.{stated_size, index_fields, index_sums};

use lf_base::{le16_bytes, le32_bytes};
use wal_watch::sums_of;

/// A page size in two bytes: 65,536 is 1.
fn stated_size(page_size: u32) -> u16
    requires { page_size ≤ 65536 }
    ensures { result ≡ stated_size page_size }
{
    if page_size == 65_536 {
        1
    } else {
        page_size as u16
    }
}

/// The fields of a header before its sums.
pub fn index_fields(page_size: u32, commit: u32, change: u32) -> [u8; 40]
    requires { page_size ≤ 65536 }
    ensures { result ≡ index_fields page_size commit change }
{
    let change = le32_bytes(change);
    let size = le16_bytes(stated_size(page_size));
    let pages = le32_bytes(commit);
    [
        0x18, 0xe2, 0x2d, 0x00, 0, 0, 0, 0, change[0], change[1], change[2], change[3], 1, 0,
        size[0], size[1], 0, 0, 0, 0, pages[0], pages[1], pages[2], pages[3], 0, 0, 0, 0, 0, 0, 0,
        0, 0, 0, 0, 0, 0, 0, 0, 0,
    ]
}

/// The sums of a header's fields, as they stand behind these.
pub fn sums_bytes(fields: &[u8]) -> [u8; 8]
    requires { length fields.now ≡ 40 }
    ensures { result ≡ index_sums fields.now }
{
    let sums = sums_of(true, fields);
    let first = le32_bytes(sums.first);
    let second = le32_bytes(sums.second);
    [
        first[0], first[1], first[2], first[3], second[0], second[1], second[2], second[3],
    ]
}
