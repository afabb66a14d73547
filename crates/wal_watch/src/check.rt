//! What stands against a write, memory aside.
ghost use Rattle.std.specs.Prelude.{◌≡◌, ◌≢◌, ◌+◌, ◌≤◌, ◌↔◌, true, false, length, take, Err, IsTrue, IfNone, IfSome, OnSome, IfOk, OnOk, IfErr};
ghost use Rattle.lf_base.specs.FileBytes.{written};
ghost use Rattle.wal_watch.specs.Frames.{is_header, page_size_in, committed_count, committed_end};
ghost use Rattle.wal_watch.specs.News.{first_new};
ghost use Rattle.wal_watch.specs.Refusals.{wal_limit, BreaksHeader, IsSoundWrite, IsWriteFault};

use crate::fault::WalFault;
use crate::header::{HEADER_LENGTH, is_header};
use crate::reader::fill;
use lf_base::{be32_at, overwrite};
use lf_sqlite_pages::Blocks;

/// The greatest length of the file in bytes.
pub const WAL_LIMIT: u64 = 268_435_456;

/// Puts the first 32 bytes after a write into `header`.
fn fill_header(contents: &Blocks, at: usize, bytes: &[u8], header: &mut [u8])
    requires size { length header.old ≡ 32 }
    requires there { 32 ≤ length (written at bytes.now contents.now.bytes) }
    ensures { header.new ≡ take 32 (written at bytes.now contents.now.bytes) }
{
    fill(contents, 0, header);
    if at < HEADER_LENGTH {
        let (piece, _) = bytes.split_at(bytes.len().min(HEADER_LENGTH - at));
        overwrite(header, at, piece);
    }
}

/// How many bytes there are after a write.
fn length_after(contents: &Blocks, at: usize, bytes: &[u8]) -> usize
    requires { at + length bytes.now ≤ wal_limit }
    ensures { result ≡ length (written at bytes.now contents.now.bytes) }
{
    let len = contents.len() as usize;
    if bytes.is_empty() {
        len
    } else {
        len.max(at + bytes.len())
    }
}

/// The page size that the header states after a write, if it is a valid one.
fn page_size_after(contents: &Blocks, at: usize, bytes: &[u8]) -> Option<u32>
    requires { at + length bytes.now ≤ wal_limit }
    ensures none { IfNone result (is_header (written at bytes.now contents.now.bytes) ≡ false) }
    ensures valid { OnSome result (is_header (written at bytes.now contents.now.bytes) ≡ true) }
    ensures size { IfSome result (λ size. size ≡ page_size_in (written at bytes.now contents.now.bytes)) }
{
    if length_after(contents, at, bytes) < HEADER_LENGTH {
        return None;
    }
    let mut header = [0; HEADER_LENGTH];
    fill_header(contents, at, bytes, &mut header);
    if !is_header(&header) {
        return None;
    }
    Some(be32_at(&header, 8))
}

/// Whether a write touches the header and leaves no valid one, or leaves one of another page size.
fn breaks_header(page_size: u32, contents: &Blocks, at: usize, bytes: &[u8]) -> bool
    requires { at + length bytes.now ≤ wal_limit }
    ensures { IsTrue result ↔ (BreaksHeader page_size at bytes.now (written at bytes.now contents.now.bytes)) }
{
    match page_size_after(contents, at, bytes) {
        None => at < HEADER_LENGTH && !bytes.is_empty(),
        Some(size) => page_size != 0 && size != page_size,
    }
}

/// Whether a write leaves the bytes before `end` as they are.
pub fn keeps(contents: &Blocks, at: usize, bytes: &[u8], end: usize) -> bool
    requires { end ≤ length contents.now.bytes }
    ensures { IsTrue result ↔ (take end (written at bytes.now contents.now.bytes) ≡ take end contents.now.bytes) }
{
    if end <= at {
        return true;
    }
    let (piece, _) = bytes.split_at(bytes.len().min(end - at));
    contents.holds(at as u64, piece)
}

/// Whether a write leaves the first 32 bytes as they are.
pub fn keeps_header(contents: &Blocks, at: usize, bytes: &[u8]) -> bool
    requires { at + length bytes.now ≤ wal_limit }
    ensures { IsTrue result ↔ (take 32 (written at bytes.now contents.now.bytes) ≡ take 32 contents.now.bytes) }
{
    let len = contents.len() as usize;
    if len >= HEADER_LENGTH {
        return keeps(contents, at, bytes, HEADER_LENGTH);
    }
    if length_after(contents, at, bytes) != len {
        return false;
    }
    keeps(contents, at, bytes, len)
}

/// The first frame that only the contents after a write may commit, or what stands against the write.
/// `committed` frames are committed, and they end at `end`.
pub fn check_write(
    contents: &Blocks,
    committed: usize,
    end: usize,
    page_size: u32,
    at: u64,
    bytes: &[u8],
) -> Result<usize, WalFault>
    requires count { committed ≡ committed_count contents.now.bytes }
    requires end { end ≡ committed_end contents.now.bytes }
    ensures first { IfOk result (λ first. first ≡ first_new contents.now.bytes (written at bytes.now contents.now.bytes)) }
    ensures sound { OnOk result (IsSoundWrite contents.now.bytes page_size at bytes.now) }
    ensures fault { IfErr result (IsWriteFault contents.now.bytes page_size at bytes.now) }
    ensures memory { result ≢ Err WalFault.NoMemory }
{
    if at > WAL_LIMIT || bytes.len() as u64 > WAL_LIMIT - at {
        return Err(WalFault::TooLong);
    }
    let at = at as usize;
    if breaks_header(page_size, contents, at, bytes) {
        return Err(WalFault::Header);
    }
    if !keeps_header(contents, at, bytes) {
        return Ok(0);
    }
    if !keeps(contents, at, bytes, end) {
        return Err(WalFault::Part);
    }
    Ok(committed)
}
