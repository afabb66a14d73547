//! What a file tells: its bytes, and its committed frames. None of these takes memory.
ghost use Rattle.std.specs.Prelude.{◌≡◌, ◌+◌, ◌≤◌, ◌<◌, ◌↔◌, length, IsTrue, IsSome, IfSome, IfNone};
ghost use Rattle.std.specs.Option.{option_map};
ghost use Rattle.lf_base.specs.FileBytes.{Reads};
ghost use Rattle.wal_watch.specs.File.{contents_of};
ghost use Rattle.wal_watch.specs.Frames.{frame_place, committed_count, committed_end, page_size_in};
ghost use Rattle.wal_watch.specs.News.{HoldsFrame, HasSize, last_size, latest_frame, latest_page};

use crate::file::WalFile;
use crate::finding::{holds_frame, holds_size, latest_frame};
use crate::frames::{fill_page, size_in};
use crate::scan::{committed_in, end_in, page_size_of};

impl WalFile {
    /// How many frames are committed.
    pub(crate) fn committed(&self) -> usize
        ensures { result ≡ committed_count (contents_of self.now) }
    {
        committed_in(self.marks)
    }

    /// The page size that the committed frames have, if there are any.
    pub fn page_size(&self) -> u32
        ensures { 0 < committed_count (contents_of self.now) → result ≡ page_size_in (contents_of self.now) }
    {
        page_size_of(self.marks)
    }

    /// How many bytes the file has, if it is there.
    pub fn len(&self) -> Option<u64>
        ensures { result ≡ option_map length self.now.contents }
    {
        if self.present {
            Some(self.contents.len())
        } else {
            None
        }
    }

    /// The byte after the committed frames, 0 where there are none.
    pub fn committed_end(&self) -> u64
        ensures { result ≡ committed_end (contents_of self.now) }
    {
        end_in(self.marks) as u64
    }

    /// How many frames are committed.
    pub fn committed_frames(&self) -> u64
        ensures { result ≡ committed_count (contents_of self.now) }
    {
        self.committed() as u64
    }

    /// Reads as many bytes from `at` on as there are and `out` has room for, and answers how many.
    pub fn read(&self, at: u64, out: &mut [u8]) -> usize
        ensures { Reads (contents_of self.now) at out.old out.new result }
    {
        self.contents.read(at, out)
    }

    /// The database size in pages after the last commit, 0 where there is none.
    pub fn last_size(&self) -> u32
        ensures { result ≡ last_size (contents_of self.now) }
    {
        let count = self.committed();
        self.contents.sound();
        if count == 0 {
            0
        } else {
            size_in(&self.contents, self.page_size(), count - 1)
        }
    }

    /// Whether a committed frame states this database size.
    pub fn has_size(&self, pages: u32) -> bool
        ensures { IsTrue result ↔ (HasSize (contents_of self.now) pages) }
    {
        self.contents.sound();
        holds_size(&self.contents, self.page_size(), self.committed(), pages)
    }

    /// Whether a committed frame of page `n` has these bytes.
    pub fn has_frame(&self, n: u32, page: &[u8]) -> bool
        ensures { IsTrue result ↔ (HoldsFrame (contents_of self.now) n page.now) }
    {
        self.contents.sound();
        let page_size = self.page_size();
        if page.len() != page_size as usize {
            return false;
        }
        holds_frame(
            &self.contents,
            &self.index,
            page_size,
            self.committed(),
            n,
            page,
        )
    }

    /// The latest committed frame of page `n`.
    fn latest_frame(&self, n: u32) -> Option<usize>
        ensures latest { result ≡ latest_frame (contents_of self.now) n 0 (committed_count (contents_of self.now)) }
        ensures there { IfSome result (λ frame. frame_place (contents_of self.now) (frame + 1) ≤ length (contents_of self.now)) }
    {
        self.contents.sound();
        let page_size = self.page_size();
        latest_frame(&self.contents, &self.index, page_size, n, self.committed())
    }

    /// Puts the bytes of the latest committed frame of page `n` into `out`, which is one page. False,
    /// and `out` as it was, exactly where there is none.
    pub fn latest(&self, n: u32, out: &mut [u8]) -> bool
        requires { 0 < committed_count (contents_of self.now) → length out.old ≡ page_size_in (contents_of self.now) }
        ensures found { IsTrue result ↔ IsSome (latest_page (contents_of self.now) n) }
        ensures page { IfSome (latest_page (contents_of self.now) n) (λ page. out.new ≡ page) }
        ensures none { IfNone (latest_page (contents_of self.now) n) (out.new ≡ out.old) }
    {
        self.contents.sound();
        match self.latest_frame(n) {
            None => false,
            Some(frame) => {
                fill_page(&self.contents, self.page_size(), frame, out);
                true
            }
        }
    }
}
