//! The frames of a write-ahead log, counted from 0 (SQLite file format, section 4.1).
ghost use Rattle.std.specs.Prelude.{◌≡◌, ◌+◌, ◌≤◌, ◌<◌, ◌^◌, length, IsTrue, ◌↔◌};
ghost use Rattle.wal_watch.specs.Frames.{frame_place, number_in, size_in, page_in, page_size_in};

use crate::header::HEADER_LENGTH;
use crate::reader::{fill, number_at};
use lf_sqlite_pages::Blocks;

/// Where a frame begins.
pub fn place_of(contents: &Blocks, page_size: u32, frame: usize) -> usize
    requires size { page_size ≡ page_size_in contents.now.bytes }
    requires there { frame_place contents.now.bytes frame ≤ length contents.now.bytes }
    requires short { length contents.now.bytes < 2 ^ 62 }
    ensures { result ≡ frame_place contents.now.bytes frame }
{
    HEADER_LENGTH + frame * (24 + page_size as usize)
}

/// The number of the page that a frame holds.
pub fn number_in(contents: &Blocks, page_size: u32, frame: usize) -> u32
    requires size { page_size ≡ page_size_in contents.now.bytes }
    requires there { frame_place contents.now.bytes (frame + 1) ≤ length contents.now.bytes }
    requires short { length contents.now.bytes < 2 ^ 62 }
    ensures { result ≡ number_in contents.now.bytes frame }
{
    number_at(contents, place_of(contents, page_size, frame))
}

/// The database size in pages after the transaction that a frame ends, or 0.
pub fn size_in(contents: &Blocks, page_size: u32, frame: usize) -> u32
    requires size { page_size ≡ page_size_in contents.now.bytes }
    requires there { frame_place contents.now.bytes (frame + 1) ≤ length contents.now.bytes }
    requires short { length contents.now.bytes < 2 ^ 62 }
    ensures { result ≡ size_in contents.now.bytes frame }
{
    number_at(contents, place_of(contents, page_size, frame) + 4)
}

/// Fills `out`, which is one page, with the page that a frame holds.
pub fn fill_page(contents: &Blocks, page_size: u32, frame: usize, out: &mut [u8])
    requires size { page_size ≡ page_size_in contents.now.bytes }
    requires there { frame_place contents.now.bytes (frame + 1) ≤ length contents.now.bytes }
    requires short { length contents.now.bytes < 2 ^ 62 }
    requires whole { length out.old ≡ page_size }
    ensures { out.new ≡ page_in contents.now.bytes frame }
{
    fill(contents, place_of(contents, page_size, frame) + 24, out);
}

/// Whether a frame holds these bytes, which are one page.
pub fn holds_page(contents: &Blocks, page_size: u32, frame: usize, page: &[u8]) -> bool
    requires size { page_size ≡ page_size_in contents.now.bytes }
    requires there { frame_place contents.now.bytes (frame + 1) ≤ length contents.now.bytes }
    requires short { length contents.now.bytes < 2 ^ 62 }
    requires whole { length page.now ≡ page_size }
    ensures { IsTrue result ↔ (page_in contents.now.bytes frame ≡ page.now) }
{
    contents.holds(place_of(contents, page_size, frame) as u64 + 24, page)
}
