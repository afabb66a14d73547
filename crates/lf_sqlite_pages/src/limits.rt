//! The page that holds no data, and how large a database may grow.
ghost use Rattle.std.specs.Prelude.{◌≡◌, ◌<◌, ◌↔◌, IsTrue};
ghost use Rattle.lf_sqlite_pages.specs.LockPage.{lock_page_of, data_pages_to, IsWithinLimit};

/// The byte at which SQLite takes its locks (SQLite file format, section 1.2).
const LOCK_BYTE: u32 = 0x4000_0000;

/// The bytes of the largest LTX file.
const LARGEST_FILE: u64 = 0x8000_0000;

/// The bytes of an LTX file beside its pages: header, end of the page block and trailer.
const AROUND_PAGES: u64 = 120;

/// The bytes of an LTX file beside each page: its number.
const BESIDE_PAGE: u64 = 4;

/// The number of the lock page, which contains byte 0x40000000 and holds no data, in a database
/// with this page size.
#[tactic(auto, unfolding(crate::specs::LockPage::lock_page_of))]
pub fn lock_page(page_size: u32) -> u32
    requires { 0 < page_size }
    ensures { result ≡ lock_page_of page_size }
{
    LOCK_BYTE / page_size + 1
}

/// How many of the pages from 1 to `n` are data pages.
pub(crate) fn data_pages_to(page_size: u32, n: u32) -> u32
    requires { 0 < page_size }
    ensures { result ≡ data_pages_to page_size n }
{
    if n < lock_page(page_size) { n } else { n - 1 }
}

/// Whether a database of `commit` pages is within the limit: an LTX file of all its pages has at
/// most 2,147,483,648 bytes.
pub fn is_within_limit(page_size: u32, commit: u32) -> bool
    ensures { IsTrue result ↔ IsWithinLimit page_size commit }
{
    u64::from(commit) <= (LARGEST_FILE - AROUND_PAGES) / (u64::from(page_size) + BESIDE_PAGE)
}
