//! A commit of a halted node is sent to the primary.
ghost use Rattle.std.specs.Prelude.{◌≡◌, IsTrue, Some, Ok, Err, IfOk, IfErr, ℕ};
ghost use Rattle.ltx_codec.specs.FileIn.{file_in};
ghost use Rattle.ltx_codec.specs.Format.{IsLtx};
ghost use Rattle.node_core.specs.Nodes.{history, parts_of, said_to, seen};
ghost use Rattle.node_core.specs.Roles.{write_permit};
ghost use Rattle.node_core.specs.Safely.{StepsSafely, law_answer};
ghost use Rattle.node_core.specs.Sending.{ComesOfDraft};
ghost use Rattle.node_core.specs.Serving.{ServesFiles};
ghost use Rattle.node_core.specs.Stores.{fields_of, position};
ghost use Rattle.node_core.specs.Waiting.{IsTransaction};
ghost use Rattle.txn_log.specs.Draft.{Drafts};
ghost use Rattle.world_laws.specs.Node as laws;

use crate::answer::Answer;
use crate::errno::{errno_of_store, errno_of_view};
use crate::lending::prepare;
use crate::node::Node;
use crate::octets::are_bytes;
use crate::sent::Sent;
use file_view::{Plan, replica_requests_leave_the_database};
use fuse_msgs::Request;
use halt_forward::HaltPass;
use lf_base::Bytes;
use lf_disk::Disk;
use lf_sqlite_pages::Change;
use ltx_codec::{Ltx, encode, file_is_read};
use std::alloc::Global;
use txn_log::{Store, StoreFault};

/// The file that a commit of this change would publish, and its encoding.
fn file_to_send<D: Disk>(
    store: &Store<D>,
    alloc: Global,
    change: Change,
    stamp: u64,
    node: u64,
) -> Result<(Ltx, Bytes), StoreFault>
    ensures drafts { IfOk result (λ sent. Drafts store.now.broken (position (fields_of store.now)) store.now.page_size store.now.commit store.now.sums.sums change stamp node (Ok sent.0)) }
    ensures valid { IfOk result (λ sent. IsTransaction sent.0) }
    ensures encodes { IfOk result (λ sent. IsLtx sent.1 sent.0 × (file_in sent.1 ≡ sent.0)) }
    ensures refuses { IfErr result (λ why. Drafts store.now.broken (position (fields_of store.now)) store.now.page_size store.now.commit store.now.sums.sums change stamp node (Err why)) }
{
    file_is_read();
    let file = store.draft(change, stamp, node)?;
    let mut bytes = Vec::new(alloc);
    match encode(&file, &mut bytes) {
        Ok(()) => {
            are_bytes(bytes.as_slice());
            Ok((file, Bytes::of(bytes)))
        }
        Err(_) => Err(StoreFault::NoMemory),
    }
}

impl<D: Disk> Node<D> {
    /// Answers a request by the files' rules, at a node that writes under this permit: what it commits is
    /// sent, and waits.
    pub(crate) fn serve_halted(&mut self, caller: u64, pass: HaltPass, request: &Request) -> Answer
        requires { write_permit self.old.standing ≡ Some pass }
        ensures does { ServesFiles (history self.old) (parts_of self.old) caller request.now result (history self.new) (parts_of self.new) (said_to self.new) }
        ensures safe { IsTrue (D.honest self.old.store.disk) → StepsSafely (seen (history self.old) (parts_of self.old)) laws.File
            (law_answer result) (seen (history self.new) (parts_of self.new)) (history self.old) (history self.new) }
        ensures standing { self.new.standing ≡ self.old.standing }
        ensures honest { D.honest self.new.store.disk ≡ D.honest self.old.store.disk }
    {
        replica_requests_leave_the_database();
        self.view.sound();
        match prepare(
            &mut self.store,
            &mut self.view,
            self.alloc,
            caller,
            &self.standing,
            request,
        ) {
            Ok(Plan::Reply(reply)) => Answer::Done(reply),
            Ok(Plan::Silent) => Answer::Quiet,
            Ok(Plan::Commit { reply, change }) => {
                match file_to_send(
                    &self.store,
                    self.alloc,
                    change,
                    self.standing.moment,
                    self.config.node,
                ) {
                    Ok((file, ltx)) => {
                        self.sent = Some(Sent {
                            caller,
                            reply,
                            file,
                            overtaken: false,
                        });
                        Answer::Send {
                            number: pass.number,
                            ltx,
                        }
                    }
                    Err(fault) => {
                        self.view.abandon();
                        Answer::Refuse(errno_of_store(&self.store.disk, fault))
                    }
                }
            }
            Err(fault) => Answer::Refuse(errno_of_view(fault)),
        }
    }
}
