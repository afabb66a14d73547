//! The rollback journal as a file.
ghost use Rattle.std.specs.Prelude.{◌≡◌, ◌+◌, ◌<◌, ◌≤◌, ◌↔◌, [], length, Some, IsTrue, IsSome, IsNone, IfOk, IsOk, OnOk, OnErr};
ghost use Rattle.std.specs.Option.{option_map};
ghost use Rattle.lf_base.specs.FileBytes.{written, resized, Reads};
ghost use Rattle.lf_sqlite_pages.specs.Blocks.{is_within, IsWithin};
ghost use Rattle.journal_watch.specs.Journal.{no_journal, is_active, finishes, bytes_of, reserved, after_write, after_cut};

use crate::fault::JournalFault;
use crate::header;
use lf_sqlite_pages::Blocks;
use std::alloc::Global;
use std::marker::Model;

/// How many bytes a journal may have.
pub const JOURNAL_LIMIT: u64 = 268_435_456;

/// The rollback journal of one database: absent, or a list of bytes. Beside it stands the room, the
/// bytes that may be written without taking memory.
#[derive(Debug, Drop)]
pub struct JournalFile {
    exists: bool,
    blocks: Blocks,
}

impl Model for JournalFile {
    ghost use Rattle.journal_watch.specs.Journal.{Journal};

    ghost Value = { Journal };

    ghost use Rattle.journal_watch.specs.JournalParts.{journal_of, IsKept};

    ghost view = { journal_of };

    ghost invariant = { IsKept };
}

impl JournalFile {
    /// A journal that doesn't exist, without room.
    pub fn new(alloc: Global) -> JournalFile
        ensures { result ≡ no_journal }
    {
        JournalFile {
            exists: false,
            blocks: Blocks::new(alloc),
        }
    }

    /// Makes the file, without bytes.
    pub fn create(&mut self)
        requires { IsNone self.old.file }
        ensures { self.new ≡ record { file = Some []; room = self.old.room } }
    {
        self.exists = true;
    }

    /// How many bytes the file has, if it exists.
    pub fn len(&self) -> Option<u64>
        ensures { result ≡ option_map length self.now.file }
    {
        if self.exists {
            Some(self.blocks.len())
        } else {
            None
        }
    }

    /// Whether a write of `count` bytes at a place takes no memory.
    pub fn has_room(&self, at: u64, count: u64) -> bool
        ensures value { result ≡ is_within self.now.room at count }
        ensures within { IsTrue result ↔ IsWithin self.now.room at count }
        ensures limited { IsTrue result → at + count ≤ JOURNAL_LIMIT }
    {
        self.blocks.has_room(at, count)
    }

    /// Whether the journal is active: it exists and has a whole header.
    pub fn is_active(&self) -> bool
        ensures { result ≡ is_active self.now.file }
    {
        self.exists && header::has_header(&self.blocks)
    }

    /// Sees to it that a write of `count` bytes at a place takes no memory: it takes the blocks of that
    /// range alone. Where the room doesn't hold the write, it is given up for room for this write.
    pub fn reserve(&mut self, at: u64, count: u64) -> Result<(), JournalFault>
        ensures ok { OnOk result (self.new ≡ reserved self.old at count) }
        ensures too_long { (result ≡ Err JournalFault.TooLong) ↔ (JOURNAL_LIMIT < at + count) }
        ensures err { OnErr result (self.new ≡ self.old) }
        ensures enough { IsWithin self.old.room at count → IsOk result }
    {
        if self.has_room(at, count) {
            return Ok(());
        }
        if at > JOURNAL_LIMIT || count > JOURNAL_LIMIT - at {
            return Err(JournalFault::TooLong);
        }
        self.blocks.reserve(at, count)?;
        Ok(())
    }

    /// Writes `bytes` at `at`; a gap before them holds zeros. The answer says whether this
    /// finished the journal.
    pub fn write(&mut self, at: u64, bytes: &[u8]) -> Result<bool, JournalFault>
        requires { IsSome self.old.file }
        ensures ok { OnOk result (self.new ≡ after_write self.old at bytes.now) }
        ensures finished { IfOk result (λ finished. finished ≡ finishes self.old.file self.new.file) }
        ensures too_long { (result ≡ Err JournalFault.TooLong) ↔ (JOURNAL_LIMIT < at + length bytes.now) }
        ensures err { OnErr result (self.new ≡ self.old) }
        ensures enough { IsWithin self.old.room at (length bytes.now) → IsOk result }
    {
        self.reserve(at, bytes.len() as u64)?;
        Ok(self.write_within(at, bytes))
    }

    /// Does what `write` does, within the room. It can't fail.
    pub fn write_within(&mut self, at: u64, bytes: &[u8]) -> bool
        requires exists { IsSome self.old.file }
        requires room { IsWithin self.old.room at (length bytes.now) }
        ensures file { self.new ≡ after_write self.old at bytes.now }
        ensures finished { result ≡ finishes self.old.file self.new.file }
    {
        let before = self.is_active();
        self.blocks.write_within(at, bytes);
        let after = self.is_active();
        before && !after
    }

    /// Cuts the file to `len` bytes, or grows it with zeros. It takes no memory. The answer says
    /// whether this finished the journal.
    pub fn cut(&mut self, len: u64) -> Result<bool, JournalFault>
        requires { IsSome self.old.file }
        ensures ok { OnOk result (self.new ≡ after_cut self.old len) }
        ensures finished { IfOk result (λ finished. finished ≡ finishes self.old.file self.new.file) }
        ensures too_long { (result ≡ Err JournalFault.TooLong) ↔ (JOURNAL_LIMIT < len) }
        ensures err { OnErr result (self.new ≡ self.old) }
        ensures enough { len ≤ JOURNAL_LIMIT → IsOk result }
    {
        if len > JOURNAL_LIMIT {
            return Err(JournalFault::TooLong);
        }
        Ok(self.cut_within(len))
    }

    /// Does what `cut` does, within the limit. It can't fail.
    pub fn cut_within(&mut self, len: u64) -> bool
        requires exists { IsSome self.old.file }
        requires limit { len ≤ JOURNAL_LIMIT }
        ensures file { self.new ≡ after_cut self.old len }
        ensures finished { result ≡ finishes self.old.file self.new.file }
    {
        let before = self.is_active();
        self.blocks.cut(len).unwrap();
        let after = self.is_active();
        before && !after
    }

    /// Removes the file, if it is there, with its room. The answer says whether this finished the
    /// journal.
    pub fn remove(&mut self) -> bool
        ensures file { self.new ≡ no_journal }
        ensures finished { result ≡ finishes self.old.file self.new.file }
    {
        let finished = self.is_active();
        self.exists = false;
        self.blocks.clear();
        finished
    }

    /// Whether `write` of these bytes would finish the journal.
    pub fn would_finish_write(&self, at: u64, bytes: &[u8]) -> bool
        ensures { result ≡ finishes self.now.file (Some (written at bytes.now (bytes_of self.now.file))) }
    {
        self.is_active() && !header::keeps_header(&self.blocks, at, bytes)
    }

    /// Whether `cut` to this length would finish the journal.
    pub fn would_finish_cut(&self, len: u64) -> bool
        ensures { result ≡ finishes self.now.file (Some (resized len (bytes_of self.now.file))) }
    {
        self.is_active() && len < 28
    }

    /// Reads as many bytes from `at` on as there are and `out` has room for, and answers how many.
    pub fn read(&self, at: u64, out: &mut [u8]) -> usize
        ensures { Reads (bytes_of self.now.file) at out.old out.new result }
    {
        self.blocks.read(at, out)
    }
}
