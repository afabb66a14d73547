//! A scan over the frames of a write-ahead log, which goes on where an earlier one stopped.
ghost use Rattle.std.specs.Prelude.{◌≡◌, ◌+◌, ◌≤◌, ◌<◌, ◌^◌, ℕ, List, false, length, take, drop, IfNone, IfSome, OnSome};
ghost use Rattle.lf_base.specs.FileBytes.{resized};
ghost use Rattle.wal_watch.specs.Frames.{is_header, is_head, is_frame_at, frame_sums, page_size_in, committed_count, committed_end};
ghost use Rattle.wal_watch.specs.Scanning.{StatesHeader, AreMarks, AreFinal, IsMarked, IsNextFrame};

use crate::header::{HEADER_LENGTH, Header, header_sums, is_header};
use crate::reader::fill;
use crate::sums::{Sums, stand_at, sums_on, with_pairs};
use lf_base::be32_at;
use lf_sqlite_pages::Blocks;

/// A place behind valid frames: how many there are, where the next begins, and the sums up to there.
#[derive(Clone, Copy)]
pub struct Mark {
    pub frames: usize,
    pub place: usize,
    pub sums: Sums,
}

/// How far a log was scanned: the header, the place behind the committed frames, and the place behind
/// the last valid frame.
#[derive(Clone, Copy)]
pub struct Marks {
    pub header: Header,
    pub committed: Mark,
    pub last: Mark,
}

/// A valid frame that comes next: the sums behind it, and the database size if it commits, else 0.
#[derive(Clone, Copy)]
pub struct NextFrame {
    pub sums: Sums,
    pub size: u32,
}

impl Header {
    /// Whether a frame's head has a page number and the salts of the header.
    fn is_head(&self, head: &[u8]) -> bool
        requires { length head.now ≡ 24 }
        ensures { (contents : List ℕ) (place : ℕ) → StatesHeader contents self.now → head.now ≡ take 24 (drop place contents) → result ≡ is_head contents place }
    {
        if be32_at(head, 0) == 0 {
            return false;
        }
        if be32_at(head, 8) != self.first_salt {
            return false;
        }
        be32_at(head, 12) == self.second_salt
    }

    /// The sums behind the frame at a place.
    fn frame_sums(&self, blocks: &Blocks, place: usize, sums: Sums, head: &[u8]) -> Sums
        requires head { length head.now ≡ 24 }
        requires short { place + (24 + self.now.page_size) < 2 ^ 62 }
        ensures { (len : ℕ) → StatesHeader (resized len blocks.now.bytes) self.now → place + (24 + self.now.page_size) ≤ len
            → head.now ≡ take 24 (drop place (resized len blocks.now.bytes)) → result ≡ frame_sums (resized len blocks.now.bytes) place sums }
    {
        let behind_head = with_pairs(self.little, sums, 0, head, 1);
        sums_on(
            blocks,
            self.little,
            behind_head,
            place + 24,
            self.page_size as usize / 8,
        )
    }
}

impl Marks {
    /// The marks as if the scan had ended behind the committed frames.
    pub fn back(self) -> Marks
        ensures { result ≡ record { header = self.header; committed = self.committed; last = self.committed } }
    {
        Marks {
            header: self.header,
            committed: self.committed,
            last: self.committed,
        }
    }

    /// The byte after the committed frames, 0 where there are none.
    fn committed_end(self) -> usize
        ensures { (contents : List ℕ) → AreFinal contents self → result ≡ committed_end contents }
    {
        if self.committed.frames == 0 {
            0
        } else {
            self.committed.place
        }
    }

    /// The marks before the first frame, if there is a valid header.
    fn start(blocks: &Blocks, len: usize) -> Option<Marks>
        ensures none { IfNone result (is_header (resized len blocks.now.bytes) ≡ false) }
        ensures some { IfSome result (AreMarks (resized len blocks.now.bytes)) }
    {
        if len < HEADER_LENGTH {
            return None;
        }
        let mut bytes = [0; HEADER_LENGTH];
        fill(blocks, 0, &mut bytes);
        if !is_header(&bytes) {
            return None;
        }
        let mark = Mark {
            frames: 0,
            place: HEADER_LENGTH,
            sums: header_sums(&bytes),
        };
        Some(Marks {
            header: Header::of(&bytes),
            committed: mark,
            last: mark,
        })
    }

    /// The valid frame that comes next, if there is one.
    fn next(&self, blocks: &Blocks, len: usize) -> Option<NextFrame>
        requires marks { AreMarks (resized len blocks.now.bytes) self.now }
        requires short { len < 2 ^ 62 }
        ensures none { IfNone result (is_frame_at (resized len blocks.now.bytes) self.now.last.place self.now.last.sums ≡ false) }
        ensures some { IfSome result (IsNextFrame (resized len blocks.now.bytes) self.now) }
        ensures room { OnSome result (self.now.last.place + (24 + self.now.header.page_size) ≤ len) }
    {
        let place = self.last.place;
        if len - place < 24 + self.header.page_size as usize {
            return None;
        }
        let mut head = [0; 24];
        fill(blocks, place, &mut head);
        if !self.header.is_head(&head) {
            return None;
        }
        let sums = self.header.frame_sums(blocks, place, self.last.sums, &head);
        if !stand_at(sums, 16, &head) {
            return None;
        }
        Some(NextFrame {
            sums,
            size: be32_at(&head, 4),
        })
    }

    /// The marks behind the valid frame that comes next.
    fn pass(self, frame: NextFrame) -> Marks
        requires short { self.last.place + (24 + self.header.page_size) < 2 ^ 62 }
        requires few { self.last.frames < 2 ^ 62 }
        ensures marks { (contents : List ℕ) → AreMarks contents self → IsNextFrame contents self frame → AreMarks contents result }
        ensures progress { self.last.place < result.last.place }
    {
        let last = Mark {
            frames: self.last.frames + 1,
            place: self.last.place + 24 + self.header.page_size as usize,
            sums: frame.sums,
        };
        Marks {
            header: self.header,
            committed: if frame.size == 0 {
                self.committed
            } else {
                last
            },
            last,
        }
    }

    /// Goes on over all valid frames.
    fn go_on(self, blocks: &Blocks, len: usize) -> Marks
        requires marks { AreMarks (resized len blocks.now.bytes) self }
        requires short { len < 2 ^ 62 }
        ensures { AreFinal (resized len blocks.now.bytes) result }
    {
        let mut marks = self;
        while let Some(frame) = marks.next(blocks, len) {
            marks = marks.pass(frame);
        }
        marks
    }
}

/// The marks of the first `len` bytes of a file, with zeros behind its end. It goes on from marks of
/// these bytes, or begins anew where there are none.
pub fn marks_of(blocks: &Blocks, len: usize, from: Option<Marks>) -> Option<Marks>
    requires marks { IfSome from (AreMarks (resized len blocks.now.bytes)) }
    requires short { len < 2 ^ 62 }
    ensures { IsMarked (resized len blocks.now.bytes) result }
{
    let from = match from {
        None => Marks::start(blocks, len),
        Some(marks) => Some(marks),
    };
    match from {
        None => None,
        Some(marks) => Some(marks.go_on(blocks, len)),
    }
}

/// How many frames were found valid.
pub fn valid_in(marks: Option<Marks>) -> usize
    ensures none { IfNone marks (result ≡ 0) }
    ensures some { IfSome marks (λ marks. result ≡ marks.last.frames) }
{
    match marks {
        None => 0,
        Some(marks) => marks.last.frames,
    }
}

/// How many frames are committed.
pub fn committed_in(marks: Option<Marks>) -> usize
    ensures count { (contents : List ℕ) → IsMarked contents marks → result ≡ committed_count contents }
    ensures none { IfNone marks (result ≡ 0) }
    ensures some { IfSome marks (λ marks. result ≡ marks.committed.frames) }
{
    match marks {
        None => 0,
        Some(marks) => marks.committed.frames,
    }
}

/// The byte after the committed frames, 0 where there are none.
pub fn end_in(marks: Option<Marks>) -> usize
    ensures { (contents : List ℕ) → IsMarked contents marks → result ≡ committed_end contents }
{
    match marks {
        None => 0,
        Some(marks) => marks.committed_end(),
    }
}

/// The page size that the header states, 0 without a valid one.
pub fn page_size_of(marks: Option<Marks>) -> u32
    ensures { (contents : List ℕ) → IsMarked contents marks → 0 < committed_count contents → result ≡ page_size_in contents }
{
    match marks {
        None => 0,
        Some(marks) => marks.header.page_size,
    }
}
