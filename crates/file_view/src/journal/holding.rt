//! The journal with a call in store: room is reserved for a call that waits for its commit.
ghost use Rattle.std.specs.Prelude.{◌≡◌, ◌≤◌, ◌<◌, ◌^◌, is_some, [], None, Some, IsSome, IfSome, OnOk, OnErr, length, true};
ghost use Rattle.std.specs.Option.{option_map};
ghost use Rattle.lf_base.specs.FileBytes.{Reads};
ghost use Rattle.journal_watch.specs.Journal.{is_active, bytes_of};
ghost use Rattle.lf_base.specs.Endian.{be32_at};
ghost use Rattle.lf_sqlite_pages.specs.PageSize.{IsPageSize};
ghost use Rattle.file_view.specs.JournalRules.{after_journal_call};
ghost use Rattle.file_view.specs.JournalState.{journal_page_size, after_call, after_waiting, reach, called, holding, HasRoom};

use crate::journal::JournalCall;
use crate::view::View;
use journal_watch::JournalFile;
use lf_base::NoMemory;
use lf_sqlite_pages::is_page_size;
use std::alloc::Global;
use std::marker::Model;

/// The journal, and the call that waits for its commit.
#[derive(Drop)]
pub(crate) struct Journal {
    pub(super) file: JournalFile,
    waiting: Option<JournalCall>,
}

impl Model for Journal {
    ghost use Rattle.lf_base.specs.Endian.{be32_at};
    ghost use Rattle.lf_sqlite_pages.specs.PageSize.{IsPageSize};
    ghost use Rattle.file_view.specs.JournalState.{journal_page_size, JournalState};

    ghost Value = { JournalState };

    ghost use Rattle.file_view.specs.JournalParts.{state_of, IsKept};

    ghost view = { state_of };

    ghost invariant = { IsKept };
}

/// Sees to it that a call takes no memory. After want of memory the file is as before.
fn make_room(file: &mut JournalFile, call: &JournalCall) -> Result<(), NoMemory>
    requires { reach call.now ≤ 268435456 }
    ensures same { file.new.file ≡ file.old.file }
    ensures room { OnOk result (HasRoom file.new call.now) }
    ensures err { OnErr result (file.new ≡ file.old) }
{
    match call {
        JournalCall::Unlink | JournalCall::Cut { .. } => Ok(()),
        JournalCall::Write { at, bytes } => file
            .reserve(*at, bytes.as_slice().len() as u64)
            .map_err(|_| NoMemory),
    }
}

/// Does a call for which there is room.
fn perform(file: &mut JournalFile, call: &JournalCall)
    requires there { IsSome file.old.file }
    requires short { reach call.now ≤ 268435456 }
    requires room { HasRoom file.old call.now }
    ensures { file.new.file ≡ after_call file.old.file call.now }
{
    match call {
        JournalCall::Unlink => file.remove(),
        JournalCall::Cut { len } => file.cut_within(*len),
        JournalCall::Write { at, bytes } => file.write_within(*at, bytes.as_slice()),
    };
}

/// The number where a journal's header has its page size.
fn stated_size(file: &JournalFile) -> u32
    requires { is_active file.now.file ≡ true }
    ensures { result ≡ be32_at 24 (bytes_of file.now.file) }
{
    let mut field = [0u8; 4];
    // All four are there: the journal is active.
    file.read(24, &mut field);
    u32::from_be_bytes(field)
}

impl Journal {
    pub(crate) fn new(alloc: Global) -> Journal
        ensures { result ≡ record { file = None; waiting = None } }
    {
        Journal {
            file: JournalFile::new(alloc),
            waiting: None,
        }
    }

    /// Makes the file, without bytes, if it isn't there.
    pub(crate) fn create(&mut self)
        requires { self.old.waiting ≡ None }
        ensures { self.new ≡ record { file = Some (bytes_of self.old.file); waiting = None } }
    {
        if self.file.len().is_none() {
            self.file.create();
        }
    }

    /// How many bytes the file has, if it is there.
    pub(crate) fn len(&self) -> Option<u64>
        ensures { result ≡ option_map length self.now.file }
    {
        self.file.len()
    }

    /// Reads as many bytes from `at` on as there are and `out` has room for, and answers how many.
    pub(crate) fn read(&self, at: u64, out: &mut [u8]) -> usize
        ensures { Reads (bytes_of self.now.file) at out.old out.new result }
    {
        self.file.read(at, out)
    }

    /// Whether it has a whole header.
    pub(crate) fn is_active(&self) -> bool
        ensures { result ≡ is_active self.now.file }
    {
        self.file.is_active()
    }

    /// The page size in the header of an active journal, if it is one.
    pub(crate) fn page_size(&self) -> Option<u32>
        ensures value { result ≡ journal_page_size self.now.file }
        ensures sqlite { IfSome result IsPageSize }
    {
        if !self.is_active() {
            return None;
        }
        let size = stated_size(&self.file);
        if is_page_size(size) { Some(size) } else { None }
    }

    /// Does a call. After want of memory nothing changed.
    pub(crate) fn perform(&mut self, call: &JournalCall) -> Result<(), NoMemory>
        requires there { IsSome self.old.file }
        requires short { reach call.now ≤ 268435456 }
        requires free { self.old.waiting ≡ None }
        ensures ok { OnOk result (self.new ≡ called self.old call.now) }
        ensures err { OnErr result (self.new ≡ self.old) }
    {
        make_room(&mut self.file, call)?;
        perform(&mut self.file, call);
        Ok(())
    }

    /// Keeps a call until its commit, which takes no memory. After want of memory nothing changed.
    pub(crate) fn hold(&mut self, call: JournalCall) -> Result<(), NoMemory>
        requires there { IsSome self.old.file }
        requires short { reach call ≤ 268435456 }
        requires free { self.old.waiting ≡ None }
        ensures ok { OnOk result (self.new ≡ holding self.old call) }
        ensures err { OnErr result (self.new ≡ self.old) }
    {
        make_room(&mut self.file, &call)?;
        self.waiting = Some(call);
        Ok(())
    }

    /// Whether a call waits.
    pub(crate) fn waits(&self) -> bool
        ensures { result ≡ is_some self.now.waiting }
    {
        self.waiting.is_some()
    }

    /// Does the call that waits, if one does.
    pub(crate) fn finish(&mut self)
        ensures { self.new ≡ record { file = after_waiting self.old; waiting = None } }
    {
        if let Some(call) = self.waiting.take() {
            perform(&mut self.file, &call);
        }
    }

    /// Gives the call that waits up.
    pub(crate) fn forget(&mut self)
        ensures { self.new ≡ record { file = self.old.file; waiting = None } }
    {
        self.waiting = None;
    }

    /// Cuts the file to no bytes, if it is there.
    pub(crate) fn empty(&mut self)
        ensures { self.new ≡ record { file = option_map (λ _. []) self.old.file; waiting = self.old.waiting } }
    {
        if self.file.len().is_some() {
            self.file.cut_within(0);
        }
    }
}

impl View {
    /// Does a call that commits nothing.
    pub(super) fn perform_call(&mut self, call: &JournalCall) -> Result<(), NoMemory>
        requires there { IsSome self.old.journal.file }
        requires short { reach call.now ≤ 268435456 }
        requires free { self.old.journal.waiting ≡ None }
        requires unheld { self.old.held_write ≡ None }
        ensures done { OnOk result (self.new ≡ after_journal_call self.old call.now) }
        ensures err { OnErr result (self.new ≡ self.old) }
    {
        let ends_writing = self.ends_writing(call);
        self.journal.perform(call)?;
        if ends_writing {
            self.database.clear();
            self.writer = None;
        }
        Ok(())
    }
}
