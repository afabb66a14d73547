//! What a checkpoint may write.
ghost use Rattle.std.specs.Prelude.{◌≡◌, ◌+◌, ◌*◌, ◌/◌, ◌≤◌, ◌<◌, ◌^◌, ◌↔◌, IsTrue, length};
ghost use Rattle.database_file.specs.Writing.{page_in};
ghost use Rattle.wal_watch.specs.File.{contents_of};
ghost use Rattle.wal_watch.specs.Frames.{page_size_in};
ghost use Rattle.wal_watch.specs.News.{HoldsFrame};
ghost use Rattle.database_under_log.specs.Over.{AreFrames};

use wal_watch::WalFile;

/// Whether a committed frame of page `n` holds page `at` of some bytes, counted from 0.
pub fn holds_page(log: &WalFile, size: usize, n: u32, bytes: &[u8], at: usize) -> bool
    requires some { 0 < size }
    requires within { at < length bytes.now / size }
    ensures { IsTrue result ↔ HoldsFrame (contents_of log.now) n (page_in bytes.now size at) }
{
    let (_, rest) = bytes.split_at(at * size);
    let (page, _) = rest.split_at(size);
    log.has_frame(n, page)
}

/// Whether some bytes are whole pages from page `first` on, each of which a committed frame of that
/// page holds: a checkpoint may write them to the database file, and they change nothing of the
/// database under the log. `page_size` is that of the log.
pub fn are_frames(log: &WalFile, page_size: u32, first: u32, bytes: &[u8]) -> bool
    requires some { 0 < page_size }
    requires size { page_size ≡ page_size_in (contents_of log.now) }
    requires numbered { first + length bytes.now / page_size < 2 ^ 32 }
    ensures { IsTrue result ↔ AreFrames (contents_of log.now) first bytes.now }
{
    let size = page_size as usize;
    let count = bytes.len() / size;
    for at in 0..count {
        if !holds_page(log, size, first + at as u32, bytes, at) {
            return false;
        }
    }
    count > 0
}
