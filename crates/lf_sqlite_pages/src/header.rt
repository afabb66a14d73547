//! What the first page of a database says of itself (SQLite file format, section 1.3).
ghost use Rattle.std.specs.Prelude.{◌≡◌};
ghost use Rattle.lf_sqlite_pages.specs.Header.{page_size_of, is_wal, states_pages, header_pages};

use crate::page_size::is_page_size;
use lf_base::{be16_at, be32_at};

/// Where the fields of the header stand.
const PAGE_SIZE_AT: usize = 16;

const WRITE_VERSION_AT: usize = 18;

const CHANGE_COUNTER_AT: usize = 24;

const PAGES_AT: usize = 28;

const VERSION_VALID_FOR_AT: usize = 92;

/// The page size that the bytes of a first page state: a big-endian number in bytes 16 and 17,
/// where 1 stands for 65,536. `None` where there are fewer than 18 bytes or it is no page size.
pub fn page_size_of(first: &[u8]) -> Option<u32>
    ensures { result ≡ page_size_of first.now }
{
    if first.len() < PAGE_SIZE_AT + 2 {
        return None;
    }
    let number = u32::from(be16_at(first, PAGE_SIZE_AT));
    let size = if number == 1 { 65536 } else { number };
    if is_page_size(size) { Some(size) } else { None }
}

/// Whether the bytes of a first page say that the database is in WAL mode: byte 18 is 2.
pub fn is_wal(first: &[u8]) -> bool
    ensures { result ≡ is_wal first.now }
{
    first.len() > WRITE_VERSION_AT && first[WRITE_VERSION_AT] == 2
}

/// The header's size of a database of `pages` pages: the number in bytes 28 to 31 of its first page,
/// where bytes 24 to 27 are bytes 92 to 95 and it is from 1 to `pages`; else `pages`.
pub fn header_pages(first: &[u8], pages: u32) -> u32
    ensures { result ≡ header_pages first.now pages }
{
    if !states_pages(first) {
        return pages;
    }
    let stated = be32_at(first, PAGES_AT);
    if 1 <= stated && stated <= pages {
        stated
    } else {
        pages
    }
}

/// Whether the number of pages in a first page is of the database's latest change.
fn states_pages(first: &[u8]) -> bool
    ensures { result ≡ states_pages first.now }
{
    first.len() >= VERSION_VALID_FOR_AT + 4
        && be32_at(first, CHANGE_COUNTER_AT) == be32_at(first, VERSION_VALID_FOR_AT)
}
