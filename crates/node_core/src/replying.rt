//! The primary's reply to the commit that was sent.
ghost use Rattle.std.specs.Prelude.{◌≡◌, ◌≢◌, ◌≤◌, ℕ, true, false, IsTrue, MatchBool, IsSomeAnd, IfSome};
ghost use Rattle.ltx_codec.specs.Positions.{after};
ghost use Rattle.ltx_codec.specs.Format.{IsFile};
ghost use Rattle.node_core.specs.Forwarding.{Accepts};
ghost use Rattle.node_core.specs.Framing.{Stands};
ghost use Rattle.node_core.specs.Nodes.{history, parts_of, said_to, seen};
ghost use Rattle.node_core.specs.Replying.{AnswersForwarded, IsDue, finished, without_session};
ghost use Rattle.node_core.specs.Safely.{StepsSafely, law_answer};
ghost use Rattle.node_core.specs.Steps.{IsStep};
ghost use Rattle.node_core.specs.Stores.{failed, fields_of, history_of, state};
ghost use Rattle.txn_log.specs.Calls.{Went};
ghost use Rattle.txn_log.specs.Causes.{Breaks};
ghost use Rattle.world_laws.specs.Answers.{completed_over};
ghost use Rattle.world_laws.specs.Node as laws;
ghost use Rattle.world_laws.specs.Store.{Apply};

use crate::answer::Answer;
use crate::ask::Ask;
use crate::errno::{EIO, errno_of_store};
use crate::forwarding::follows;
use crate::node::Node;
use crate::sent::has_sent;
use file_view::View;
use lf_base::Pos;
use lf_disk::Disk;
use ltx_codec::Ltx;
use txn_log::{Store, StoreFault};

/// Whether a file leads to a position.
fn leads_to(file: &Ltx, here: Pos) -> bool
    ensures { MatchBool result (here ≡ after file.now) (here ≢ after file.now) }
{
    file.after() == here
}

/// A store applies the file that was sent.
fn apply<D: Disk>(store: &mut Store<D>, file: &Ltx) -> Result<Pos, StoreFault>
    requires { IsFile file.now }
    ensures answers { Accepts (fields_of store.old) file.now result }
    ensures cause { Breaks store.old.broken (D.faults store.old.disk) result store.new.broken (D.faults store.new.disk) }
    ensures stands { Stands (fields_of store.old) file.now result (fields_of store.new) }
    ensures went { IsTrue (D.honest store.old.disk) → Went (state (history_of store.old) (fields_of store.old)) (failed (history_of store.old) (fields_of store.old)) (history_of store.old)
        (Apply (completed_over (state (history_of store.old) (fields_of store.old)) file.now)) result
        (state (history_of store.new) (fields_of store.new)) (failed (history_of store.new) (fields_of store.new)) (history_of store.new) }
    ensures honest { D.honest store.new.disk ≡ D.honest store.old.disk }
{
    store.apply(file)
}

/// Does the request that waited, over the image that the file led to. Where another image came in
/// between, nothing of it is done, and the files are that image.
fn finish(view: &mut View, overtaken: bool, page_size: u32, commit: u32)
    requires { page_size ≤ 65536 }
    ensures { view.new ≡ finished overtaken page_size commit view.old }
{
    if overtaken {
        view.abandon();
        view.applied(page_size, commit);
    } else {
        view.commit_done();
    }
}

impl<D: Disk> Node<D> {
    /// Gives up what was sent of a session.
    pub(crate) fn give_up_of(&mut self, caller: u64)
        ensures parts { parts_of self.new ≡ without_session caller (parts_of self.old) }
        ensures store { self.new.store ≡ self.old.store }
    {
        if has_sent(&self.sent, caller) {
            self.view.abandon();
            self.sent = None;
        }
    }

    /// Whether what was sent is to be applied.
    fn is_due(&self) -> bool
        ensures yes { result ≡ true → IsSomeAnd self.now.sent (IsDue (parts_of self.now)) }
        ensures no { result ≡ false → IfSome self.now.sent (λ sent. IsDue (parts_of self.now) sent → ⊥) }
    {
        match &self.sent {
            Some(sent) => {
                follows(&sent.file, self.store.pos()) && self.standing.permit_out().is_none()
            }
            None => false,
        }
    }

    /// Applies what was sent, and does the request.
    fn finish_sent(&mut self) -> Answer
        requires due { IsSomeAnd self.old.sent (IsDue (parts_of self.old)) }
        ensures does { AnswersForwarded self.old.sent true (history self.old) (parts_of self.old) result (history self.new) (parts_of self.new) (said_to self.new) }
        ensures safe { IsTrue (D.honest self.old.store.disk) → StepsSafely (seen (history self.old) (parts_of self.old)) (laws.Forwarded true)
            (law_answer result) (seen (history self.new) (parts_of self.new)) (history self.old) (history self.new) }
        ensures standing { self.new.standing ≡ self.old.standing }
        ensures honest { D.honest self.new.store.disk ≡ D.honest self.old.store.disk }
    {
        self.view.sound();
        let Some(sent) = self.sent.take() else {
            return Answer::Refuse(EIO);
        };
        match apply(&mut self.store, &sent.file) {
            Ok(position) => {
                finish(
                    &mut self.view,
                    sent.overtaken,
                    self.store.page_size,
                    self.store.commit,
                );
                self.view.told_position(position);
                Answer::Done(sent.reply)
            }
            Err(fault) => {
                self.view.abandon();
                Answer::Refuse(errno_of_store(&self.store.disk, fault))
            }
        }
    }

    /// Gives up what was sent. Where the primary committed it, and the node stands where the file leads,
    /// the request is done.
    fn settle_sent(&mut self, ok: bool) -> Answer
        requires due { ok ≡ true → IfSome self.old.sent (λ sent. IsDue (parts_of self.old) sent → ⊥) }
        ensures does { AnswersForwarded self.old.sent ok (history self.old) (parts_of self.old) result (history self.new) (parts_of self.new) (said_to self.new) }
        ensures safe { IsTrue (D.honest self.old.store.disk) → StepsSafely (seen (history self.old) (parts_of self.old)) (laws.Forwarded ok)
            (law_answer result) (seen (history self.new) (parts_of self.new)) (history self.old) (history self.new) }
        ensures standing { self.new.standing ≡ self.old.standing }
        ensures honest { D.honest self.new.store.disk ≡ D.honest self.old.store.disk }
    {
        let Some(sent) = self.sent.take() else {
            return Answer::Refuse(EIO);
        };
        self.view.abandon();
        if ok && leads_to(&sent.file, self.store.pos()) {
            Answer::Done(sent.reply)
        } else {
            Answer::Refuse(EIO)
        }
    }

    /// Answers the primary's reply.
    fn take_reply(&mut self, ok: bool) -> Answer
        ensures does { AnswersForwarded self.old.sent ok (history self.old) (parts_of self.old) result (history self.new) (parts_of self.new) (said_to self.new) }
        ensures safe { IsTrue (D.honest self.old.store.disk) → StepsSafely (seen (history self.old) (parts_of self.old)) (laws.Forwarded ok)
            (law_answer result) (seen (history self.new) (parts_of self.new)) (history self.old) (history self.new) }
        ensures standing { self.new.standing ≡ self.old.standing }
        ensures honest { D.honest self.new.store.disk ≡ D.honest self.old.store.disk }
    {
        if ok && self.is_due() {
            self.finish_sent()
        } else {
            self.settle_sent(ok)
        }
    }

    /// Answers the primary's reply, as a step.
    pub(crate) fn answer_forwarded(&mut self, ok: bool) -> Answer
        ensures step { (caller : ℕ) → IsStep (history self.old) (parts_of self.old) caller (Ask.Forwarded ok) result (history self.new) (parts_of self.new) (said_to self.new) }
    {
        self.take_reply(ok)
    }
}
