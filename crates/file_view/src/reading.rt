//! READ.
ghost use Rattle.std.specs.Prelude.{◌≡◌, ◌-◌, ℕ, List, [], IsSomeAnd, IfOk, IfErr, OnOk, length, min, unwrap_or};
ghost use Rattle.std.specs.Option.{option_map};
ghost use Rattle.database_file.specs.DatabaseFile.{FitsShape};
ghost use Rattle.database_file.specs.declared.fault.FileFault.TheVariants as fault;
ghost use Rattle.database_file.specs.Fault.{SameBase, HasCause as HasFileCause};
ghost use Rattle.file_handles.specs.Nodes.{file_at as file_number};
ghost use Rattle.file_handles.specs.Texts.{part, line, position_line};
ghost use Rattle.file_view.specs.Done.{HasRead};
ghost use Rattle.file_view.specs.HandleRules.{handle_rows};
ghost use Rattle.file_view.specs.Needs.{read_needs};
ghost use Rattle.file_view.specs.Reading.{is_being_written, hides_journal, file_contents, IsReading};
ghost use Rattle.file_view.specs.Refusal.{IsAllowed, HasReadCause};
ghost use Rattle.journal_watch.specs.Journal.{bytes_of};
ghost use Rattle.wal_watch.specs.File.{contents_of};
ghost use Rattle.shm_index.specs.Shared.{bytes_of as shared_bytes};

use crate::asked::Read;
use crate::fault::ViewFault;
use crate::journal::holding::Journal;
use crate::requests::Plan;
use crate::view::{Scene, View};
use byte_locks::{FileKind, LockId, LockTable};
use database_file::FileFault;
use file_handles::{copied_from, position_line, with_newline};
use fuse_msgs::Reply;
use lf_base::{Bytes, NoMemory, Text};
use lf_sqlite_pages::PageStore;
use shm_index::SharedMemory;
use std::alloc::Global;
use wal_watch::WalFile;

/// As many zeros as there are bytes from `at` on among `len`, at most `size`.
fn room_for(alloc: Global, len: u64, at: u64, size: u32) -> Result<Vec<u8>, NoMemory>
    ensures { IfOk result (λ room. length room.items ≡ min size (len - at)) }
{
    let count = len.saturating_sub(at).min(u64::from(size));
    let room = vec![in alloc; 0; count as usize]?;
    Ok(room)
}

fn read_journal(alloc: Global, file: &Journal, at: u64, size: u32) -> Result<Vec<u8>, NoMemory>
    ensures { IfOk result (λ bytes. bytes.items ≡ part (bytes_of file.now.file) at size) }
{
    let mut bytes = room_for(alloc, file.len().unwrap_or(0), at, size)?;
    file.read(at, bytes.as_mut_slice());
    Ok(bytes)
}

fn read_log(alloc: Global, file: &WalFile, at: u64, size: u32) -> Result<Vec<u8>, NoMemory>
    ensures { IfOk result (λ bytes. bytes.items ≡ part (contents_of file.now) at size) }
{
    let mut bytes = room_for(alloc, file.len().unwrap_or(0), at, size)?;
    file.read(at, bytes.as_mut_slice());
    Ok(bytes)
}

fn read_shared(alloc: Global, file: &SharedMemory, at: u64, size: u32) -> Result<Vec<u8>, NoMemory>
    ensures { IfOk result (λ bytes. bytes.items ≡ part (shared_bytes file.now) at size) }
{
    let mut bytes = room_for(alloc, file.len().unwrap_or(0), at, size)?;
    file.read(at, bytes.as_mut_slice());
    Ok(bytes)
}

/// The primary's name and a newline, nothing where it isn't known.
fn host_line(alloc: Global, host: &Option<Text>) -> Result<Vec<u8>, NoMemory>
    ensures { IfOk result (λ contents. contents.items ≡ unwrap_or (option_map line host.now) []) }
{
    match host {
        Some(host) => with_newline(alloc, host.bytes()),
        None => Ok(Vec::new(alloc)),
    }
}

/// Whether anybody holds a lock by which a journal is written.
fn is_being_written(locks: &LockTable) -> bool
    ensures { result ≡ is_being_written locks.now }
{
    locks.writer(LockId::Reserved).is_some()
        || locks.writer(LockId::Pending).is_some()
        || locks.writer(LockId::Shared).is_some()
}

impl View {
    /// Whether an active journal is hidden.
    fn hides_journal(&self, scene: &Scene) -> bool
        ensures { result ≡ hides_journal self.now scene.now }
    {
        scene.role.is_replica() && self.journal.is_active() && !is_being_written(&self.locks)
    }

    /// Bytes of a file other than the database.
    fn read_contents(
        &self,
        alloc: Global,
        scene: &Scene,
        file: FileKind,
        at: u64,
        size: u32,
    ) -> Result<Vec<u8>, NoMemory>
        ensures { IfOk result (λ bytes. bytes.items ≡ part (file_contents self.now scene.now file) at size) }
    {
        match file {
            FileKind::Database | FileKind::LockFile => copied_from(alloc, &[], at, size),
            FileKind::Journal if self.hides_journal(scene) => copied_from(alloc, &[], at, size),
            FileKind::Journal => read_journal(alloc, &self.journal, at, size),
            FileKind::Wal => read_log(alloc, &self.log, at, size),
            FileKind::Shm => read_shared(alloc, &self.shared, at, size),
            FileKind::PosFile => {
                let contents = position_line(alloc, self.position)?;
                copied_from(alloc, contents.as_slice(), at, size)
            }
            FileKind::Primary => {
                let contents = host_line(alloc, &self.host)?;
                copied_from(alloc, contents.as_slice(), at, size)
            }
        }
    }

    /// Reads as many bytes of a file as there are of those that are asked for.
    pub(crate) fn read_file<S: PageStore>(
        &self,
        alloc: Global,
        scene: &Scene,
        base: &mut S,
        file: FileKind,
        read: Read,
    ) -> Result<Bytes, FileFault>
        requires fits { FitsShape self.now.database (S.page_size base.old) (S.commit base.old) }
        ensures done { IfOk result (IsReading (S.image base.old) self.now scene.now file read.at read.size) }
        ensures cause { IfErr result (HasFileCause (S.faults base.old) (S.faults base.new)) }
        ensures pages { IfErr result (λ e. e ≡ fault.Unread → file ≡ FileKind.Database) }
        ensures base { SameBase S.PageStore base.old base.new }
    {
        match file {
            FileKind::Database => {
                let bytes = self.database.read(alloc, base, read.at, read.size)?;
                Ok(Bytes::of(bytes))
            }
            _ => {
                let bytes = self.read_contents(alloc, scene, file, read.at, read.size)?;
                Ok(Bytes::of(bytes))
            }
        }
    }

    /// READ.
    #[tactic(auto, using(crate::proofs::FaultLemmas::row_cause, crate::proofs::FaultLemmas::reading_cause))]
    pub(crate) fn answer_read<S: PageStore>(
        &self,
        alloc: Global,
        scene: &Scene,
        base: &mut S,
        read: Read,
    ) -> Result<Plan, ViewFault>
        requires over { (scene.now.page_size ≡ S.page_size base.old) × (scene.now.commit ≡ S.commit base.old) }
        requires fits { FitsShape self.now.database (S.page_size base.old) (S.commit base.old) }
        ensures done { IfOk result (λ plan. IsSomeAnd (file_number read.node) (λ file. (bytes : List ℕ) × HasRead (S.image base.old) self.now scene.now file read.at read.size bytes plan self.now)) }
        ensures allowed { OnOk result (IsAllowed (handle_rows self.now scene.now read.node read.fh)) }
        ensures cause { IfErr result (HasReadCause (read_needs (file_number read.node)) (handle_rows self.now scene.now read.node read.fh) (S.faults base.old) (S.faults base.new)) }
        ensures base { SameBase S.PageStore base.old base.new }
    {
        let file = self.handle(scene, read.node, read.fh)?;
        let bytes = self.read_file(alloc, scene, base, file, read)?;
        Ok(Plan::Reply(Reply::Bytes { bytes }))
    }
}
