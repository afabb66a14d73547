//! SETATTR, from the request to its reply.
ghost use Rattle.std.specs.Prelude.{◌≡◌, ◌++◌, Some, true, IfOk, IfErr, OnOk, OnErr};
ghost use Rattle.database_file.specs.DatabaseFile.{FitsShape};
ghost use Rattle.database_file.specs.Fault.{SameBase};
ghost use Rattle.file_handles.specs.Nodes.{file_at as file_number};
ghost use Rattle.fuse_msgs.specs.declared.reply.Reply.TheVariants as reply;
ghost use Rattle.file_view.specs.Done.{IsReplied, IsSized};
ghost use Rattle.file_view.specs.HandleRules.{size_at, served_rows};
ghost use Rattle.file_view.specs.Needs as needs;
ghost use Rattle.file_view.specs.Needs.{size_needs};
ghost use Rattle.file_view.specs.Refusal.{IsAllowed, HasCause, HasReadCause};
ghost use Rattle.file_view.specs.Requests.{size_rows};
ghost use Rattle.file_view.specs.Served.{exists};

use crate::asked::Resize;
use crate::errno::EPERM;
use crate::fault::ViewFault;
use crate::journal::JournalCall;
use crate::requests::Plan;
use crate::view::{Scene, View};
use byte_locks::FileKind;
use fuse_msgs::Reply;
use lf_sqlite_pages::PageStore;
use std::alloc::Global;

impl View {
    /// SETATTR without a size: nothing changes.
    pub(crate) fn answer_setattr(&self, scene: &Scene, node: u64) -> Result<Plan, ViewFault>
        ensures done { IfOk result (λ plan. IsReplied plan (reply.Attr node (size_at self.now scene.now node)) self.now self.now) }
        ensures allowed { OnOk result (IsAllowed (served_rows self.now scene.now node)) }
        ensures cause { IfErr result (HasCause needs.Nothing (served_rows self.now scene.now node)) }
    {
        let file = self.served(scene, node)?;
        let size = self.file_size(scene, file);
        Ok(Plan::Reply(Reply::Attr { node, size }))
    }

    /// SETATTR of a size of a file that is there.
    fn size_file<S: PageStore>(
        &mut self,
        alloc: Global,
        scene: &Scene,
        base: &mut S,
        file: FileKind,
        resize: Resize,
    ) -> Result<Plan, ViewFault>
        requires over { (scene.now.page_size ≡ S.page_size base.old) × (scene.now.commit ≡ S.commit base.old) }
        requires fits { FitsShape self.old.database (S.page_size base.old) (S.commit base.old) }
        requires there { exists self.old scene.now.role file ≡ true }
        ensures done { IfOk result (λ plan. IsSized (S.image base.old) self.old scene.now resize.node (Some file) resize.len plan self.new) }
        ensures allowed { OnOk result (IsAllowed (size_rows self.old scene.now (Some file) resize.given resize.len)) }
        ensures cause { IfErr result (HasReadCause (size_needs (Some file)) (size_rows self.old scene.now (Some file) resize.given resize.len) (S.faults base.old) (S.faults base.new)) }
        ensures err { OnErr result (self.new ≡ self.old) }
        ensures base { SameBase S.PageStore base.old base.new }
    {
        let Resize { node, given, len } = resize;
        match file {
            FileKind::Database => {
                self.resize_database(alloc, scene, base, given, len)?;
                let size = self.file_size(scene, file);
                Ok(Plan::Reply(Reply::Attr { node, size }))
            }
            FileKind::Journal => {
                let call = JournalCall::Cut { len };
                let change = self.change_journal(alloc, scene, base, given, call)?;
                Ok(Plan::of(Reply::Attr { node, size: len }, change))
            }
            FileKind::Wal => {
                self.resize_log(scene, len)?;
                Ok(Plan::Reply(Reply::Attr { node, size: len }))
            }
            FileKind::Shm => {
                self.resize_shared(len)?;
                Ok(Plan::Reply(Reply::Attr { node, size: len }))
            }
            FileKind::PosFile | FileKind::LockFile | FileKind::Primary => {
                Err(ViewFault::Errno(EPERM))
            }
        }
    }

    /// SETATTR of a size.
    pub(crate) fn answer_size<S: PageStore>(
        &mut self,
        alloc: Global,
        scene: &Scene,
        base: &mut S,
        resize: Resize,
    ) -> Result<Plan, ViewFault>
        requires over { (scene.now.page_size ≡ S.page_size base.old) × (scene.now.commit ≡ S.commit base.old) }
        requires fits { FitsShape self.old.database (S.page_size base.old) (S.commit base.old) }
        ensures done { IfOk result (λ plan. IsSized (S.image base.old) self.old scene.now resize.node (file_number resize.node) resize.len plan self.new) }
        ensures allowed { OnOk result (IsAllowed (served_rows self.old scene.now resize.node ++ size_rows self.old scene.now (file_number resize.node) resize.given resize.len)) }
        ensures cause { IfErr result (HasReadCause (size_needs (file_number resize.node))
            (served_rows self.old scene.now resize.node ++ size_rows self.old scene.now (file_number resize.node) resize.given resize.len) (S.faults base.old) (S.faults base.new)) }
        ensures err { OnErr result (self.new ≡ self.old) }
        ensures base { SameBase S.PageStore base.old base.new }
    {
        let file = self.served(scene, resize.node)?;
        self.size_file(alloc, scene, base, file, resize)
    }
}
