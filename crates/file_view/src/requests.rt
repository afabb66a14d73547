//! The one call over all requests on the served files: every request, by what it asks for. WRITE, from
//! the request to its reply.
ghost use Rattle.std.specs.Prelude.{◌≡◌, ◌<◌, ◌^◌, ◌++◌, Some, true, IfOk, IfErr, OnOk, OnErr, length};
ghost use Rattle.database_file.specs.Fault.{SameBase};
ghost use Rattle.file_handles.specs.Nodes.{file_at as file_number};
ghost use Rattle.fuse_msgs.specs.declared.reply.Reply.TheVariants as reply;
ghost use Rattle.lf_sqlite_pages.specs.PageSize.{IsPageSize};
ghost use Rattle.file_view.specs.Done.{IsDone, IsWritten};
ghost use Rattle.file_view.specs.HandleRules.{handle_rows};
ghost use Rattle.file_view.specs.Needs.{needs_of, write_needs};
ghost use Rattle.file_view.specs.Overlay.{StandsOver, AwaitsOver, FitsImage};
ghost use Rattle.file_view.specs.PlanParts.{planned};
ghost use Rattle.file_view.specs.Refusal.{IsAllowed, HasReadCause};
ghost use Rattle.file_view.specs.Requests.{rows_of, scene_of, write_rows};
ghost use Rattle.file_view.specs.Served.{exists};
ghost use Rattle.file_view.specs.Sound.{IsSound};

use crate::asked::{Lock, Read, Resize, Write};
use crate::errno::EPERM;
use crate::fault::ViewFault;
use crate::view::{Role, Scene, View};
use byte_locks::FileKind;
use fuse_msgs::{Op, Reply, Request};
use lf_sqlite_pages::{Change, PageStore};
use std::alloc::Global;

/// What becomes of a request that no rule refuses.
#[derive(Debug, Drop)]
pub enum Plan {
    /// It is done, and this is the reply.
    Reply(Reply),
    /// It is done, and has no reply.
    Silent,
    /// The served files are as before. The request waits until this change is committed.
    Commit { reply: Reply, change: Change },
}

impl Plan {
    /// A request that is done with a reply, or waits with it for a change.
    pub(crate) fn of(reply: Reply, change: Option<Change>) -> Plan
        ensures { result ≡ planned reply change }
    {
        match change {
            None => Plan::Reply(reply),
            Some(change) => Plan::Commit { reply, change },
        }
    }
}

/// What a request of a session is answered over.
fn scene_over<S: PageStore>(session: u64, role: Role, base: &S) -> Scene
    ensures value { result ≡ scene_of session role (S.page_size base.now) (S.commit base.now) (S.is_broken base.now) }
    ensures sized { 0 < result.commit → IsPageSize result.page_size }
{
    Scene {
        session,
        role,
        page_size: base.page_size(),
        commit: base.commit(),
        is_broken: base.is_broken(),
    }
}

/// The reply to a WRITE of some bytes.
fn written(bytes: &[u8]) -> Reply
    requires { length bytes.now < 2 ^ 32 }
    ensures { result ≡ reply.Written (length bytes.now) }
{
    Reply::Written {
        size: bytes.len() as u32,
    }
}

impl View {
    /// What is always true of the files. It does nothing.
    pub fn sound(&self)
        ensures { IsSound self.now }
    {
        let _name = &self.name;
    }

    /// Answers a request of a session, over the committed image that `base` keeps: it is done, or says
    /// which change would commit it and waits for that. After a fault the files are as before.
    pub fn prepare<S: PageStore>(
        &mut self,
        alloc: Global,
        session: u64,
        role: Role,
        request: &Request,
        base: &mut S,
    ) -> Result<Plan, ViewFault>
        requires { StandsOver (S.image base.old) (S.page_size base.old) (S.commit base.old) self.old }
        ensures done { IfOk result (λ plan. IsDone (S.image base.old) self.old (scene_of session role (S.page_size base.old) (S.commit base.old) (S.is_broken base.old)) request.now plan self.new) }
        ensures allowed { OnOk result (IsAllowed (rows_of self.old (scene_of session role (S.page_size base.old) (S.commit base.old) (S.is_broken base.old)) request.now)) }
        ensures cause { IfErr result (HasReadCause (needs_of self.old request.now)
            (rows_of self.old (scene_of session role (S.page_size base.old) (S.commit base.old) (S.is_broken base.old)) request.now) (S.faults base.old) (S.faults base.new)) }
        ensures err { OnErr result (self.new ≡ self.old) }
        ensures name { self.new.name ≡ self.old.name }
        ensures stands { StandsOver (S.image base.old) (S.page_size base.old) (S.commit base.old) self.new }
        ensures awaits { IfOk result (AwaitsOver (S.image base.old) self.new) }
        ensures base { SameBase S.PageStore base.old base.new }
    {
        let scene = scene_over(session, role, base);
        self.sound();
        self.answer(alloc, &scene, request, base)
    }

    /// Answers a request, or says what it commits.
    #[tactic(auto, using(crate::proofs::FaultLemmas::plain_cause))]
    fn answer<S: PageStore>(
        &mut self,
        alloc: Global,
        scene: &Scene,
        request: &Request,
        base: &mut S,
    ) -> Result<Plan, ViewFault>
        requires over { (scene.now.page_size ≡ S.page_size base.old) × (scene.now.commit ≡ S.commit base.old) }
        requires shape { FitsImage self.old (S.page_size base.old) (S.commit base.old) }
        ensures done { IfOk result (λ plan. IsDone (S.image base.old) self.old scene.now request.now plan self.new) }
        ensures allowed { OnOk result (IsAllowed (rows_of self.old scene.now request.now)) }
        ensures cause { IfErr result (HasReadCause (needs_of self.old request.now) (rows_of self.old scene.now request.now) (S.faults base.old) (S.faults base.new)) }
        ensures err { OnErr result (self.new ≡ self.old) }
        ensures base { SameBase S.PageStore base.old base.new }
    {
        let node = request.node;
        match &request.op {
            Op::Lookup { name } => self.answer_lookup(scene, node, name.as_slice()),
            Op::Forget => Ok(Plan::Silent),
            Op::Getattr => self.answer_getattr(scene, node),
            Op::Setattr { size, owner } => match size {
                None => self.answer_setattr(scene, node),
                Some(len) => {
                    let resize = Resize {
                        node,
                        given: *owner,
                        len: *len,
                    };
                    self.answer_size(alloc, scene, base, resize)
                }
            },
            Op::Unlink { name } => self.answer_unlink(alloc, scene, base, node, name.as_slice()),
            Op::Open => self.answer_open(scene, node),
            Op::Read {
                fh,
                at,
                size,
                owner: _,
            } => {
                let read = Read {
                    node,
                    fh: *fh,
                    at: *at,
                    size: *size,
                };
                self.answer_read(alloc, scene, base, read)
            }
            Op::Write {
                fh,
                at,
                owner,
                bytes,
            } => {
                let write = Write {
                    node,
                    fh: *fh,
                    given: *owner,
                    at: *at,
                    bytes: bytes.as_slice(),
                };
                self.answer_write(alloc, scene, base, &write)
            }
            Op::Release { fh, owner: _ } => self.answer_release(scene, node, *fh),
            Op::Fsync { fh } => self.answer_fsync(scene, node, *fh),
            Op::Flush { fh, owner } => self.answer_flush(scene, node, *fh, *owner),
            Op::Init { major: _, minor: _ } => Ok(Plan::Reply(Reply::Init)),
            Op::Getlk {
                fh,
                owner,
                start,
                end,
                kind,
            } => {
                let lock = Lock {
                    node,
                    fh: *fh,
                    owner: *owner,
                    start: *start,
                    end: *end,
                    wish: *kind,
                };
                self.answer_getlk(scene, lock)
            }
            Op::Setlk {
                fh,
                owner,
                start,
                end,
                kind,
            } => {
                let lock = Lock {
                    node,
                    fh: *fh,
                    owner: *owner,
                    start: *start,
                    end: *end,
                    wish: *kind,
                };
                self.answer_setlk(scene, lock)
            }
            Op::Setlkw {
                fh,
                owner,
                start,
                end,
                kind,
            } => {
                let lock = Lock {
                    node,
                    fh: *fh,
                    owner: *owner,
                    start: *start,
                    end: *end,
                    wish: *kind,
                };
                self.answer_setlk(scene, lock)
            }
            Op::Create { name } => self.answer_create(scene, node, name.as_slice()),
            Op::Destroy => Ok(Plan::Reply(Reply::Empty)),
        }
    }

    /// WRITE to a file that is there.
    fn write_file<S: PageStore>(
        &mut self,
        alloc: Global,
        scene: &Scene,
        base: &mut S,
        file: FileKind,
        write: &Write<'_>,
    ) -> Result<Plan, ViewFault>
        requires over { (scene.now.page_size ≡ S.page_size base.old) × (scene.now.commit ≡ S.commit base.old) }
        requires fits { FitsImage self.old (S.page_size base.old) (S.commit base.old) }
        requires there { exists self.old scene.now.role file ≡ true }
        ensures done { IfOk result (λ plan. IsWritten (S.image base.old) self.old scene.now (Some file) write.now.at write.now.bytes.now plan self.new) }
        ensures allowed { OnOk result (IsAllowed (write_rows self.old scene.now (Some file) write.now.given write.now.at write.now.bytes.now)) }
        ensures cause { IfErr result (HasReadCause (write_needs (Some file)) (write_rows self.old scene.now (Some file) write.now.given write.now.at write.now.bytes.now) (S.faults base.old) (S.faults base.new)) }
        ensures err { OnErr result (self.new ≡ self.old) }
        ensures base { SameBase S.PageStore base.old base.new }
    {
        match file {
            FileKind::Database => {
                self.write_database(alloc, scene, base, write)?;
                Ok(Plan::Reply(written(write.bytes)))
            }
            FileKind::Journal => {
                let change = self.write_journal(alloc, scene, base, write)?;
                Ok(Plan::of(written(write.bytes), change))
            }
            FileKind::Wal => {
                let change = self.write_log(alloc, scene, base, write)?;
                Ok(Plan::of(written(write.bytes), change))
            }
            FileKind::Shm => {
                self.write_shared(write.at, write.bytes)?;
                Ok(Plan::Reply(written(write.bytes)))
            }
            FileKind::PosFile | FileKind::LockFile | FileKind::Primary => {
                Err(ViewFault::Errno(EPERM))
            }
        }
    }

    /// WRITE.
    #[tactic(auto, using(crate::proofs::RequestLemmas::cause_first, crate::proofs::RequestLemmas::cause_behind))]
    pub(crate) fn answer_write<S: PageStore>(
        &mut self,
        alloc: Global,
        scene: &Scene,
        base: &mut S,
        write: &Write<'_>,
    ) -> Result<Plan, ViewFault>
        requires over { (scene.now.page_size ≡ S.page_size base.old) × (scene.now.commit ≡ S.commit base.old) }
        requires fits { FitsImage self.old (S.page_size base.old) (S.commit base.old) }
        ensures done { IfOk result (λ plan. IsWritten (S.image base.old) self.old scene.now (file_number write.now.node) write.now.at write.now.bytes.now plan self.new) }
        ensures allowed { OnOk result (IsAllowed (handle_rows self.old scene.now write.now.node write.now.fh ++ write_rows self.old scene.now (file_number write.now.node) write.now.given write.now.at write.now.bytes.now)) }
        ensures cause { IfErr result (HasReadCause (write_needs (file_number write.now.node))
            (handle_rows self.old scene.now write.now.node write.now.fh ++ write_rows self.old scene.now (file_number write.now.node) write.now.given write.now.at write.now.bytes.now) (S.faults base.old) (S.faults base.new)) }
        ensures err { OnErr result (self.new ≡ self.old) }
        ensures base { SameBase S.PageStore base.old base.new }
    {
        let file = self.handle(scene, write.node, write.fh)?;
        self.write_file(alloc, scene, base, file, write)
    }
}
