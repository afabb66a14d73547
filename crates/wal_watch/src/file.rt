//! The write-ahead log as a file.
ghost use Rattle.std.specs.Prelude.{◌≡◌, ◌+◌, ◌≤◌, ◌<◌, ◌↔◌, None, Err, [], length, IsTrue, IsSome, IsOk, IfSome, OnOk, OnErr};
ghost use Rattle.lf_base.specs.FileBytes.{written};
ghost use Rattle.lf_sqlite_pages.specs.Blocks.{is_within, IsWithin};
ghost use Rattle.wal_watch.specs.File.{no_wal, with_room, after_write, undone, with_contents};
ghost use Rattle.wal_watch.specs.Indexing.{AreShared};
ghost use Rattle.wal_watch.specs.Refusals.{wal_limit};
ghost use Rattle.wal_watch.specs.Scanning.{AreMarks, IsMarked};

use crate::check::{WAL_LIMIT, keeps};
use crate::fault::WalFault;
use crate::index::FrameIndex;
use crate::scan::{Marks, committed_in, marks_of, page_size_of, valid_in};
use lf_base::NoMemory;
use lf_sqlite_pages::Blocks;
use std::alloc::Global;
use std::marker::Model;

/// The least length of a frame in bytes: its head and a page of 512.
const LEAST_FRAME: usize = 536;

/// The file of a write-ahead log: absent, or its bytes. It knows how far they were scanned, so that a
/// write is scanned from the last valid frame on.
#[derive(Drop)]
pub struct WalFile {
    pub(crate) present: bool,
    pub(crate) contents: Blocks,
    pub(crate) marks: Option<Marks>,
    /// The marks before the last write.
    pub(crate) saved: Option<Marks>,
    pub(crate) index: FrameIndex,
    /// How many committed frames the contents before the last write shares with this one.
    pub(crate) shared: usize,
}

impl Model for WalFile {
    ghost use Rattle.wal_watch.specs.File.{Wal};

    ghost Value = { Wal };

    ghost use Rattle.wal_watch.specs.FileParts.{wal_of, IsKept};

    ghost view = { wal_of };

    ghost invariant = { IsKept };
}

/// The marks that a write leaves: those behind the last valid frame or behind the committed ones, if
/// no byte before them changes.
fn kept_marks(contents: &Blocks, marks: Option<Marks>, at: usize, bytes: &[u8]) -> Option<Marks>
    requires { IsMarked contents.now.bytes marks }
    ensures marks { IfSome result (AreMarks (written at bytes.now contents.now.bytes)) }
    ensures shared { IfSome result (λ marks. AreShared contents.now.bytes (written at bytes.now contents.now.bytes) marks.committed.frames) }
{
    let Some(marks) = marks else {
        return None;
    };
    if keeps(contents, at, bytes, marks.last.place) {
        return Some(marks);
    }
    if keeps(contents, at, bytes, marks.committed.place) {
        return Some(marks.back());
    }
    None
}

impl WalFile {
    /// No file, and no room.
    pub fn new(alloc: Global) -> WalFile
        ensures { result ≡ no_wal }
    {
        WalFile {
            present: false,
            contents: Blocks::new(alloc),
            marks: None,
            saved: None,
            index: FrameIndex::new(alloc),
            shared: 0,
        }
    }

    /// Makes the file, without bytes.
    pub fn create(&mut self)
        requires { self.old.contents ≡ None }
        ensures { self.new ≡ with_contents self.old [] }
    {
        self.present = true;
    }

    /// Removes the file, and gives its room back.
    pub fn remove(&mut self)
        ensures { self.new ≡ no_wal }
    {
        let alloc = *self.contents.allocator();
        self.present = false;
        self.contents.clear();
        self.marks = None;
        self.saved = None;
        self.index = FrameIndex::new(alloc);
        self.shared = 0;
    }

    /// Whether a write of `count` bytes at a place takes no memory.
    pub fn has_room(&self, at: u64, count: u64) -> bool
        ensures value { result ≡ is_within self.now.room at count }
        ensures within { IsTrue result ↔ IsWithin self.now.room at count }
        ensures limited { IsTrue result → at + count ≤ wal_limit }
    {
        self.contents.has_room(at, count)
    }

    /// What is always true of the room. It does nothing: a caller's proof takes the fact from here.
    pub fn sound_room(&self, at: u64, count: u64)
        ensures { IsWithin self.now.room at count → at + count ≤ wal_limit }
    {
        self.has_room(at, count);
    }

    /// Sees to it that a write of `count` bytes at a place takes no memory: it takes the blocks of that
    /// range alone, and what taking the write back needs. Where the room doesn't hold the write, it is
    /// given up for room for this write.
    pub fn reserve(&mut self, at: u64, count: u64) -> Result<(), WalFault>
        ensures ok { OnOk result (self.new ≡ with_room self.old at count) }
        ensures too_long { (result ≡ Err WalFault.TooLong) ↔ (wal_limit < at + count) }
        ensures err { OnErr result (self.new ≡ self.old) }
        ensures enough { IsWithin self.old.room at count → IsOk result }
    {
        if self.has_room(at, count) {
            return Ok(());
        }
        if at > WAL_LIMIT || count > WAL_LIMIT - at {
            return Err(WalFault::TooLong);
        }
        self.make_room(at, count)?;
        Ok(())
    }

    /// Makes room for a write, and for the frames that it may complete.
    pub(crate) fn make_room(&mut self, at: u64, count: u64) -> Result<(), NoMemory>
        requires { at + count ≤ wal_limit }
        ensures ok { OnOk result (self.new ≡ with_room self.old at count) }
        ensures err { OnErr result (self.new ≡ self.old) }
    {
        self.make_index_room(count as usize)?;
        self.contents.reserve(at, count)?;
        Ok(())
    }

    /// Makes room in the index for the valid frames that it lacks and those that a write of so many bytes
    /// may complete, and adds the committed ones that it lacks.
    fn make_index_room(&mut self, count: usize) -> Result<(), NoMemory>
        requires { count ≤ wal_limit }
        ensures { self.new ≡ self.old }
    {
        self.contents.sound();
        let committed = self.committed();
        let lacking = valid_in(self.marks).saturating_sub(self.index.len());
        self.index
            .reserve(lacking.saturating_add(count / LEAST_FRAME + 1))?;
        self.index
            .extend(&self.contents, page_size_of(self.marks), committed);
        Ok(())
    }

    /// Writes within the room, whatever the bytes. It takes no memory.
    pub fn write_within(&mut self, at: u64, bytes: &[u8])
        requires there { IsSome self.old.contents }
        requires room { IsWithin self.old.room at (length bytes.now) }
        ensures { self.new ≡ after_write self.old at bytes.now }
    {
        let from = kept_marks(&self.contents, self.marks, at as usize, bytes);
        self.contents.write_within(at, bytes);
        self.saved = self.marks;
        self.marks = marks_of(&self.contents, self.contents.len() as usize, from);
        self.shared = committed_in(from);
        self.index.go_over(self.shared);
        let committed = committed_in(self.marks);
        self.index
            .extend(&self.contents, page_size_of(self.marks), committed);
    }

    /// Takes the last write back. It takes no memory.
    pub fn undo(&mut self)
        requires { IsSome self.old.before }
        ensures { self.new ≡ undone self.old }
    {
        self.contents.sound();
        let page_size = page_size_of(self.marks);
        self.index.truncate(&self.contents, page_size, self.shared);
        self.contents.undo();
        self.marks = self.saved;
    }
}
