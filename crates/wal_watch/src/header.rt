//! The header of a write-ahead log (SQLite file format, section 4.1).
ghost use Rattle.std.specs.Prelude.{◌≡◌, ◌≤◌, length, true};
ghost use Rattle.std.specs.Bool.{OnTrue};
ghost use Rattle.lf_sqlite_pages.specs.PageSize.{IsPageSize};
ghost use Rattle.wal_watch.specs.Frames.{is_header, is_little, header_sums, page_size_in};
ghost use Rattle.wal_watch.specs.Scanning.{StatesHeader};

use crate::sums::{Sums, stand_at, with_pairs};
use lf_base::be32_at;
use lf_sqlite_pages::is_page_size;

/// The length of the header in bytes.
pub const HEADER_LENGTH: usize = 32;

/// Says that the words of the sums are little-endian.
const LITTLE_MAGIC: u32 = 0x377f_0682;

/// Says that the words of the sums are big-endian.
const BIG_MAGIC: u32 = 0x377f_0683;

const VERSION: u32 = 3_007_000;

/// What a valid header states: the byte order of the sums, the page size and the two salts.
#[derive(Clone, Copy)]
pub struct Header {
    pub little: bool,
    pub page_size: u32,
    pub first_salt: u32,
    pub second_salt: u32,
}

impl Header {
    /// What the valid header states that bytes begin with.
    pub fn of(bytes: &[u8]) -> Header
        requires valid { is_header bytes.now ≡ true }
        requires room { 32 ≤ length bytes.now }
        ensures { StatesHeader bytes.now result }
    {
        Header {
            little: is_little(bytes),
            page_size: be32_at(bytes, 8),
            first_salt: be32_at(bytes, 16),
            second_salt: be32_at(bytes, 20),
        }
    }
}

/// Whether the words of the sums are little-endian.
fn is_little(contents: &[u8]) -> bool
    requires { 32 ≤ length contents.now }
    ensures { result ≡ is_little contents.now }
{
    be32_at(contents, 0) == LITTLE_MAGIC
}

/// The sums of the first 24 bytes.
#[tactic(auto, unfolding(crate::specs::Frames::header_sums))]
pub fn header_sums(contents: &[u8]) -> Sums
    requires { 32 ≤ length contents.now }
    ensures { result ≡ header_sums contents.now }
{
    let start = Sums {
        first: 0,
        second: 0,
    };
    with_pairs(is_little(contents), start, 0, contents, 3)
}

/// Whether the contents begins with a valid header.
#[tactic(auto, unfolding(crate::specs::Frames::is_header))]
pub fn is_header(contents: &[u8]) -> bool
    ensures value { result ≡ is_header contents.now }
    ensures room { OnTrue result (32 ≤ length contents.now) }
    ensures page_size { OnTrue result (IsPageSize (page_size_in contents.now)) }
{
    if contents.len() < HEADER_LENGTH {
        return false;
    }
    (is_little(contents) || be32_at(contents, 0) == BIG_MAGIC)
        && be32_at(contents, 4) == VERSION
        && is_page_size(be32_at(contents, 8))
        && stand_at(header_sums(contents), 24, contents)
}
