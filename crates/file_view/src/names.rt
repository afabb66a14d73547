//! LOOKUP, CREATE and UNLINK.
ghost use Rattle.std.specs.Prelude.{◌≡◌, ℕ, Some, None, IsSomeAnd, IfSome, IfNone, IfOk, IfErr, OnOk, OnErr, is_some, true};
ghost use Rattle.database_file.specs.DatabaseFile.{FitsShape};
ghost use Rattle.database_file.specs.Fault.{SameBase};
ghost use Rattle.file_handles.specs.Handles.{least_free, opened};
ghost use Rattle.file_handles.specs.Names.{file_named as named};
ghost use Rattle.file_view.specs.Done.{IsFound, HasCreated, IsUnlinked};
ghost use Rattle.file_view.specs.NameRules.{is_there, lookup_rows, creating_rows, create_rows, unlinking_rows, unlink_rows, with_file, IsCreated};
ghost use Rattle.file_view.specs.Needs as needs;
ghost use Rattle.file_view.specs.Needs.{unlink_needs};
ghost use Rattle.file_view.specs.Refusal.{first_refusal, IsAllowed, HasCause, HasReadCause};
ghost use Rattle.file_view.specs.Served.{exists};

use crate::errno::{EAGAIN, EIO, ENFILE, ENOENT, EPERM, EROFS};
use crate::fault::ViewFault;
use crate::requests::Plan;
use crate::view::{Scene, View};
use byte_locks::FileKind;
use file_handles::{ROOT, file_named, node_of};
use fuse_msgs::Reply;
use lf_base::{Errno, NoMemory};
use lf_sqlite_pages::PageStore;
use std::alloc::Global;

impl View {
    /// The file of a name, if it is there.
    fn there(&self, scene: &Scene, name: &[u8]) -> Option<FileKind>
        ensures found { IfSome result (λ file. named self.now.name name.now ≡ Some file) }
        ensures there { IfSome result (λ file. exists self.now scene.now.role file ≡ true) }
        ensures some { is_some result ≡ is_there self.now scene.now name.now }
    {
        let file = file_named(&self.name, name)?;
        if self.exists(scene.role, file) {
            Some(file)
        } else {
            None
        }
    }

    /// LOOKUP: the file of the name.
    pub(crate) fn lookup(
        &self,
        scene: &Scene,
        node: u64,
        name: &[u8],
    ) -> Result<FileKind, ViewFault>
        ensures found { IfOk result (λ file. named self.now.name name.now ≡ Some file) }
        ensures there { IfOk result (λ file. exists self.now scene.now.role file ≡ true) }
        ensures allowed { OnOk result (IsAllowed (lookup_rows self.now scene.now node name.now)) }
        ensures cause { IfErr result (HasCause needs.Nothing (lookup_rows self.now scene.now node name.now)) }
    {
        if node != ROOT {
            return Err(ViewFault::Errno(ENOENT));
        }
        match self.there(scene, name) {
            Some(file) => Ok(file),
            None => Err(ViewFault::Errno(ENOENT)),
        }
    }

    /// The rule that refuses to make a file, if one does.
    fn creating_refusal(&self, scene: &Scene, file: FileKind) -> Option<Errno>
        ensures value { result ≡ first_refusal (creating_rows self.now scene.now (Some file)) }
        ensures free { IfNone result (file ≡ FileKind.Journal → self.now.journal.waiting ≡ None) }
    {
        match file {
            FileKind::Journal if scene.is_broken => Some(EIO),
            FileKind::Journal if scene.role.is_replica() => Some(EROFS),
            FileKind::Journal if self.waits() => Some(EAGAIN),
            FileKind::Wal if scene.is_broken => Some(EIO),
            FileKind::Wal if self.waits() => Some(EAGAIN),
            FileKind::Primary => Some(EPERM),
            _ => None,
        }
    }

    /// The file that CREATE makes or opens, and the number of its new handle.
    fn creation(&self, scene: &Scene, node: u64, name: &[u8]) -> Result<(FileKind, u64), ViewFault>
        ensures found { IfOk result (λ made. named self.now.name name.now ≡ Some made.0) }
        ensures number { IfOk result (λ made. least_free self.now.handles scene.now.session ≡ Some made.1) }
        ensures free { IfOk result (λ made. made.0 ≡ FileKind.Journal → self.now.journal.waiting ≡ None) }
        ensures allowed { OnOk result (IsAllowed (create_rows self.now scene.now node name.now)) }
        ensures cause { IfErr result (HasCause needs.Nothing (create_rows self.now scene.now node name.now)) }
    {
        let Some(file) = file_named(&self.name, name) else {
            return Err(ViewFault::Errno(EPERM));
        };
        if node != ROOT {
            return Err(ViewFault::Errno(ENOENT));
        }
        let Some(number) = self.handles.least_free(scene.session) else {
            return Err(ViewFault::Errno(ENFILE));
        };
        match self.creating_refusal(scene, file) {
            Some(errno) => Err(ViewFault::Errno(errno)),
            None => Ok((file, number)),
        }
    }

    /// Makes the shared memory, and opens a handle on it. After want of memory nothing changed.
    fn create_shared(&mut self, session: u64, number: u64) -> Result<(), NoMemory>
        requires { self.old.shared.file ≡ None }
        ensures done { OnOk result (self.new ≡ record (with_file self.old FileKind.Shm) { handles = opened self.old.handles session number FileKind.Shm }) }
        ensures err { OnErr result (self.new ≡ self.old) }
    {
        self.shared.create()?;
        if let Err(NoMemory) = self.handles.open(session, number, FileKind::Shm) {
            self.shared.remove();
            return Err(NoMemory);
        }
        Ok(())
    }

    /// Sees to it that a file is there, and opens a handle on it. After want of memory nothing changed.
    fn make_file(&mut self, file: FileKind, session: u64, number: u64) -> Result<(), NoMemory>
        requires { file ≡ FileKind.Journal → self.old.journal.waiting ≡ None }
        ensures done { OnOk result (self.new ≡ record (with_file self.old file) { handles = opened self.old.handles session number file }) }
        ensures err { OnErr result (self.new ≡ self.old) }
    {
        if file == FileKind::Shm && self.shared.len().is_none() {
            return self.create_shared(session, number);
        }
        self.handles.open(session, number, file)?;
        match file {
            FileKind::Journal => self.journal.create(),
            FileKind::Wal if self.log.len().is_none() => self.log.create(),
            _ => {}
        }
        Ok(())
    }

    /// CREATE: the file, and the number of its new handle.
    pub(crate) fn create(
        &mut self,
        scene: &Scene,
        node: u64,
        name: &[u8],
    ) -> Result<(FileKind, u64), ViewFault>
        ensures found { IfOk result (λ made. named self.old.name name.now ≡ Some made.0) }
        ensures done { IfOk result (λ made. IsCreated self.old scene.now made.0 made.1 self.new) }
        ensures allowed { OnOk result (IsAllowed (create_rows self.old scene.now node name.now)) }
        ensures cause { IfErr result (HasCause needs.Memory (create_rows self.old scene.now node name.now)) }
        ensures err { OnErr result (self.new ≡ self.old) }
    {
        let (file, number) = self.creation(scene, node, name)?;
        self.make_file(file, scene.session, number)?;
        Ok((file, number))
    }

    /// LOOKUP.
    pub(crate) fn answer_lookup(
        &self,
        scene: &Scene,
        node: u64,
        name: &[u8],
    ) -> Result<Plan, ViewFault>
        ensures done { IfOk result (λ plan. IsSomeAnd (named self.now.name name.now) (λ file. IsFound self.now scene.now file plan self.now)) }
        ensures allowed { OnOk result (IsAllowed (lookup_rows self.now scene.now node name.now)) }
        ensures cause { IfErr result (HasCause needs.Nothing (lookup_rows self.now scene.now node name.now)) }
    {
        let file = self.lookup(scene, node, name)?;
        Ok(Plan::Reply(Reply::Entry {
            node: node_of(file),
            size: self.file_size(scene, file),
        }))
    }

    /// CREATE.
    pub(crate) fn answer_create(
        &mut self,
        scene: &Scene,
        node: u64,
        name: &[u8],
    ) -> Result<Plan, ViewFault>
        ensures done { IfOk result (λ plan. IsSomeAnd (named self.old.name name.now) (λ file. (fh : ℕ) × HasCreated self.old scene.now file fh plan self.new)) }
        ensures allowed { OnOk result (IsAllowed (create_rows self.old scene.now node name.now)) }
        ensures cause { IfErr result (HasCause needs.Memory (create_rows self.old scene.now node name.now)) }
        ensures err { OnErr result (self.new ≡ self.old) }
    {
        let (file, fh) = self.create(scene, node, name)?;
        Ok(Plan::Reply(Reply::Created {
            node: node_of(file),
            size: self.file_size(scene, file),
            fh,
        }))
    }

    /// UNLINK of a file that is there.
    fn unlink_file<S: PageStore>(
        &mut self,
        alloc: Global,
        scene: &Scene,
        base: &mut S,
        file: FileKind,
    ) -> Result<Plan, ViewFault>
        requires over { (scene.now.page_size ≡ S.page_size base.old) × (scene.now.commit ≡ S.commit base.old) }
        requires fits { FitsShape self.old.database (S.page_size base.old) (S.commit base.old) }
        requires there { exists self.old scene.now.role file ≡ true }
        ensures done { IfOk result (λ plan. IsUnlinked (S.image base.old) self.old scene.now (Some file) plan self.new) }
        ensures allowed { OnOk result (IsAllowed (unlinking_rows self.old scene.now (Some file))) }
        ensures cause { IfErr result (HasReadCause (unlink_needs (Some file)) (unlinking_rows self.old scene.now (Some file)) (S.faults base.old) (S.faults base.new)) }
        ensures err { OnErr result (self.new ≡ self.old) }
        ensures base { SameBase S.PageStore base.old base.new }
    {
        match file {
            FileKind::Journal => {
                let change = self.unlink_journal(alloc, scene, base)?;
                Ok(Plan::of(Reply::Empty, change))
            }
            FileKind::Wal => {
                self.remove_log(scene)?;
                Ok(Plan::Reply(Reply::Empty))
            }
            FileKind::Shm => {
                self.remove_shared();
                Ok(Plan::Reply(Reply::Empty))
            }
            FileKind::Database | FileKind::PosFile | FileKind::LockFile | FileKind::Primary => {
                Err(ViewFault::Errno(EPERM))
            }
        }
    }

    /// UNLINK.
    pub(crate) fn answer_unlink<S: PageStore>(
        &mut self,
        alloc: Global,
        scene: &Scene,
        base: &mut S,
        node: u64,
        name: &[u8],
    ) -> Result<Plan, ViewFault>
        requires over { (scene.now.page_size ≡ S.page_size base.old) × (scene.now.commit ≡ S.commit base.old) }
        requires fits { FitsShape self.old.database (S.page_size base.old) (S.commit base.old) }
        ensures done { IfOk result (λ plan. IsUnlinked (S.image base.old) self.old scene.now (named self.old.name name.now) plan self.new) }
        ensures allowed { OnOk result (IsAllowed (unlink_rows self.old scene.now node name.now)) }
        ensures cause { IfErr result (HasReadCause (unlink_needs (named self.old.name name.now)) (unlink_rows self.old scene.now node name.now) (S.faults base.old) (S.faults base.new)) }
        ensures err { OnErr result (self.new ≡ self.old) }
        ensures base { SameBase S.PageStore base.old base.new }
    {
        let file = self.lookup(scene, node, name)?;
        self.unlink_file(alloc, scene, base, file)
    }
}
