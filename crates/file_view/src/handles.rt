//! GETATTR, OPEN, RELEASE, FLUSH and FSYNC, and what every request with a handle begins with.
ghost use Rattle.std.specs.Prelude.{◌≡◌, ℕ, Some, IfSome, IsSomeAnd, IfOk, IfErr, OnOk, OnErr, is_some, true};
ghost use Rattle.file_handles.specs.Nodes.{file_at as file_number};
ghost use Rattle.file_handles.specs.Handles.{is_open, least_free};
ghost use Rattle.fuse_msgs.specs.declared.reply.Reply.TheVariants as reply;
ghost use Rattle.file_view.specs.Done.{IsReplied, HasOpened};
ghost use Rattle.file_view.specs.HandleRules.{is_served, is_known, is_open_at, known_rows, served_rows, handle_rows, lock_handle_rows, closing_rows, size_at, open_rows, IsOpened, released, flushed};
ghost use Rattle.file_view.specs.Needs as needs;
ghost use Rattle.file_view.specs.Refusal.{IsAllowed, HasCause};
ghost use Rattle.file_view.specs.Requests.{owner_of};
ghost use Rattle.file_view.specs.Served.{exists};

use crate::errno::{EBADF, ENFILE, ENOENT};
use crate::fault::ViewFault;
use crate::requests::Plan;
use crate::view::{Scene, View};
use byte_locks::{FileKind, Owner};
use file_handles::{ROOT, file_at};
use fuse_msgs::Reply;

impl View {
    /// The file of a node, if it is there.
    fn served_at(&self, scene: &Scene, node: u64) -> Option<FileKind>
        ensures found { IfSome result (λ file. file_number node ≡ Some file) }
        ensures there { IfSome result (λ file. exists self.now scene.now.role file ≡ true) }
        ensures served { is_some result ≡ is_served self.now scene.now node }
    {
        let file = file_at(node)?;
        if self.exists(scene.role, file) {
            Some(file)
        } else {
            None
        }
    }

    /// Whether a node is the folder, or a file that is there.
    fn is_known(&self, scene: &Scene, node: u64) -> bool
        ensures { result ≡ is_known self.now scene.now node }
    {
        node == ROOT || self.served_at(scene, node).is_some()
    }

    /// The file of a node on which the session has this handle open, whether it is there or not.
    fn open_at(&self, scene: &Scene, node: u64, fh: u64) -> Option<FileKind>
        ensures found { IfSome result (λ file. file_number node ≡ Some file) }
        ensures open { is_some result ≡ is_open_at self.now scene.now node fh }
    {
        let file = file_at(node)?;
        if self.handles.is_open(scene.session, fh, file) {
            Some(file)
        } else {
            None
        }
    }

    /// The file of a node.
    pub(crate) fn served(&self, scene: &Scene, node: u64) -> Result<FileKind, ViewFault>
        ensures found { IfOk result (λ file. file_number node ≡ Some file) }
        ensures there { IfOk result (λ file. exists self.now scene.now.role file ≡ true) }
        ensures allowed { OnOk result (IsAllowed (served_rows self.now scene.now node)) }
        ensures cause { IfErr result (HasCause needs.Nothing (served_rows self.now scene.now node)) }
    {
        match self.served_at(scene, node) {
            Some(file) => Ok(file),
            None => Err(ViewFault::Errno(ENOENT)),
        }
    }

    /// Whether a node is known.
    pub(crate) fn known(&self, scene: &Scene, node: u64) -> Result<(), ViewFault>
        ensures allowed { OnOk result (IsAllowed (known_rows self.now scene.now node)) }
        ensures cause { IfErr result (HasCause needs.Nothing (known_rows self.now scene.now node)) }
    {
        if self.is_known(scene, node) {
            Ok(())
        } else {
            Err(ViewFault::Errno(ENOENT))
        }
    }

    /// The file of a request with a handle.
    pub(crate) fn handle(&self, scene: &Scene, node: u64, fh: u64) -> Result<FileKind, ViewFault>
        ensures found { IfOk result (λ file. file_number node ≡ Some file) }
        ensures there { IfOk result (λ file. exists self.now scene.now.role file ≡ true) }
        ensures allowed { OnOk result (IsAllowed (handle_rows self.now scene.now node fh)) }
        ensures cause { IfErr result (HasCause needs.Nothing (handle_rows self.now scene.now node fh)) }
    {
        if !self.is_known(scene, node) {
            return Err(ViewFault::Errno(ENOENT));
        }
        match self.open_at(scene, node, fh) {
            Some(file) => Ok(file),
            None => Err(ViewFault::Errno(EBADF)),
        }
    }

    /// The file of a lock request.
    pub(crate) fn lock_handle(
        &self,
        scene: &Scene,
        node: u64,
        fh: u64,
    ) -> Result<FileKind, ViewFault>
        ensures found { IfOk result (λ file. file_number node ≡ Some file) }
        ensures allowed { OnOk result (IsAllowed (lock_handle_rows self.now scene.now node fh)) }
        ensures cause { IfErr result (HasCause needs.Nothing (lock_handle_rows self.now scene.now node fh)) }
    {
        self.served(scene, node)?;
        match self.open_at(scene, node, fh) {
            Some(file) => Ok(file),
            None => Err(ViewFault::Errno(EBADF)),
        }
    }

    /// The file of a request that an open handle serves also where its file was unlinked.
    fn closing_handle(&self, scene: &Scene, node: u64, fh: u64) -> Result<FileKind, ViewFault>
        ensures found { IfOk result (λ file. file_number node ≡ Some file) }
        ensures allowed { OnOk result (IsAllowed (closing_rows self.now scene.now node fh)) }
        ensures cause { IfErr result (HasCause needs.Nothing (closing_rows self.now scene.now node fh)) }
    {
        match self.open_at(scene, node, fh) {
            Some(file) => Ok(file),
            None => {
                self.known(scene, node)?;
                Err(ViewFault::Errno(EBADF))
            }
        }
    }

    /// How many bytes a node has; the folder has none.
    fn size_at(&self, scene: &Scene, node: u64) -> u64
        ensures { result ≡ size_at self.now scene.now node }
    {
        match file_at(node) {
            Some(file) => self.file_size(scene, file),
            None => 0,
        }
    }

    /// GETATTR: the node's attributes.
    pub(crate) fn getattr(&self, scene: &Scene, node: u64) -> Result<Reply, ViewFault>
        ensures done { IfOk result (λ reply. reply ≡ Reply.Attr node (size_at self.now scene.now node)) }
        ensures allowed { OnOk result (IsAllowed (known_rows self.now scene.now node)) }
        ensures cause { IfErr result (HasCause needs.Nothing (known_rows self.now scene.now node)) }
    {
        self.known(scene, node)?;
        let size = self.size_at(scene, node);
        Ok(Reply::Attr { node, size })
    }

    /// FSYNC: it is done, and does nothing more. What was committed is on the disk already.
    pub(crate) fn fsync(&self, scene: &Scene, node: u64, fh: u64) -> Result<(), ViewFault>
        ensures allowed { OnOk result (IsAllowed (handle_rows self.now scene.now node fh)) }
        ensures cause { IfErr result (HasCause needs.Nothing (handle_rows self.now scene.now node fh)) }
    {
        self.handle(scene, node, fh)?;
        Ok(())
    }

    /// OPEN: the number of the new handle.
    pub(crate) fn open(&mut self, scene: &Scene, node: u64) -> Result<u64, ViewFault>
        ensures done { IfOk result (λ fh. (file : FileKind) → file_number node ≡ Some file → IsOpened self.old scene.now file fh self.new) }
        ensures allowed { OnOk result (IsAllowed (open_rows self.old scene.now node)) }
        ensures cause { IfErr result (HasCause needs.Memory (open_rows self.old scene.now node)) }
        ensures err { OnErr result (self.new ≡ self.old) }
    {
        let file = self.served(scene, node)?;
        let Some(number) = self.handles.least_free(scene.session) else {
            return Err(ViewFault::Errno(ENFILE));
        };
        self.handles.open(scene.session, number, file)?;
        Ok(number)
    }

    /// RELEASE.
    pub(crate) fn release(&mut self, scene: &Scene, node: u64, fh: u64) -> Result<(), ViewFault>
        ensures done { OnOk result (self.new ≡ released self.old scene.now fh) }
        ensures allowed { OnOk result (IsAllowed (closing_rows self.old scene.now node fh)) }
        ensures cause { IfErr result (HasCause needs.Nothing (closing_rows self.old scene.now node fh)) }
        ensures err { OnErr result (self.new ≡ self.old) }
    {
        self.closing_handle(scene, node, fh)?;
        self.handles.close(scene.session, fh);
        Ok(())
    }

    /// FLUSH.
    pub(crate) fn flush(
        &mut self,
        scene: &Scene,
        node: u64,
        fh: u64,
        owner: Owner,
    ) -> Result<(), ViewFault>
        ensures done { OnOk result ((file : FileKind) → file_number node ≡ Some file → self.new ≡ flushed self.old owner file) }
        ensures allowed { OnOk result (IsAllowed (closing_rows self.old scene.now node fh)) }
        ensures cause { IfErr result (HasCause needs.Nothing (closing_rows self.old scene.now node fh)) }
        ensures err { OnErr result (self.new ≡ self.old) }
    {
        let file = self.closing_handle(scene, node, fh)?;
        self.release_file(owner, file);
        Ok(())
    }

    /// GETATTR.
    pub(crate) fn answer_getattr(&self, scene: &Scene, node: u64) -> Result<Plan, ViewFault>
        ensures done { IfOk result (λ plan. IsReplied plan (reply.Attr node (size_at self.now scene.now node)) self.now self.now) }
        ensures allowed { OnOk result (IsAllowed (known_rows self.now scene.now node)) }
        ensures cause { IfErr result (HasCause needs.Nothing (known_rows self.now scene.now node)) }
    {
        let reply = self.getattr(scene, node)?;
        Ok(Plan::Reply(reply))
    }

    /// OPEN.
    pub(crate) fn answer_open(&mut self, scene: &Scene, node: u64) -> Result<Plan, ViewFault>
        ensures done { IfOk result (λ plan. IsSomeAnd (file_number node) (λ file. (fh : ℕ) × HasOpened self.old scene.now file fh plan self.new)) }
        ensures allowed { OnOk result (IsAllowed (open_rows self.old scene.now node)) }
        ensures cause { IfErr result (HasCause needs.Memory (open_rows self.old scene.now node)) }
        ensures err { OnErr result (self.new ≡ self.old) }
    {
        let fh = self.open(scene, node)?;
        Ok(Plan::Reply(Reply::Opened { fh }))
    }

    /// RELEASE.
    pub(crate) fn answer_release(
        &mut self,
        scene: &Scene,
        node: u64,
        fh: u64,
    ) -> Result<Plan, ViewFault>
        ensures done { IfOk result (λ plan. IsReplied plan reply.Empty (released self.old scene.now fh) self.new) }
        ensures allowed { OnOk result (IsAllowed (closing_rows self.old scene.now node fh)) }
        ensures cause { IfErr result (HasCause needs.Nothing (closing_rows self.old scene.now node fh)) }
        ensures err { OnErr result (self.new ≡ self.old) }
    {
        self.release(scene, node, fh)?;
        Ok(Plan::Reply(Reply::Empty))
    }

    /// FLUSH.
    pub(crate) fn answer_flush(
        &mut self,
        scene: &Scene,
        node: u64,
        fh: u64,
        owner: u64,
    ) -> Result<Plan, ViewFault>
        ensures done { IfOk result (λ plan. IsSomeAnd (file_number node) (λ file. IsReplied plan reply.Empty (flushed self.old (owner_of scene.now owner) file) self.new)) }
        ensures allowed { OnOk result (IsAllowed (closing_rows self.old scene.now node fh)) }
        ensures cause { IfErr result (HasCause needs.Nothing (closing_rows self.old scene.now node fh)) }
        ensures err { OnErr result (self.new ≡ self.old) }
    {
        self.flush(scene, node, fh, scene.owner(owner))?;
        Ok(Plan::Reply(Reply::Empty))
    }

    /// FSYNC.
    pub(crate) fn answer_fsync(&self, scene: &Scene, node: u64, fh: u64) -> Result<Plan, ViewFault>
        ensures done { IfOk result (λ plan. IsReplied plan reply.Empty self.now self.now) }
        ensures allowed { OnOk result (IsAllowed (handle_rows self.now scene.now node fh)) }
        ensures cause { IfErr result (HasCause needs.Nothing (handle_rows self.now scene.now node fh)) }
    {
        self.fsync(scene, node, fh)?;
        Ok(Plan::Reply(Reply::Empty))
    }
}
