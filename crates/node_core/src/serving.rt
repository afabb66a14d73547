//! A request on the served files.
ghost use Rattle.std.specs.Prelude.{◌≡◌, ◌||◌, IsTrue, None};
ghost use Rattle.node_core.specs.HoldingBack.{is_kept_out};
ghost use Rattle.node_core.specs.Locking.{is_barred};
ghost use Rattle.node_core.specs.Nodes.{history, parts_of, said_to, seen};
ghost use Rattle.node_core.specs.Roles.{write_permit};
ghost use Rattle.node_core.specs.Safely.{StepsSafely, law_answer};
ghost use Rattle.node_core.specs.Serving.{ServesFiles};
ghost use Rattle.node_core.specs.Steps.{AnswersFile, IsStep};
ghost use Rattle.node_core.specs.Unlinking.{unlinks_database};
ghost use Rattle.world_laws.specs.Node as laws;

use crate::answer::Answer;
use crate::ask::Ask;
use crate::errno::{EAGAIN, errno_of_store, errno_of_view};
use crate::lending::prepare;
use crate::node::Node;
use file_view::{Plan, replica_requests_leave_the_database};
use fuse_msgs::Request;
use lf_disk::Disk;
use world_laws::moment_is_of_step;

impl<D: Disk> Node<D> {
    /// Answers a request by the files' rules, at a node that has no permit to write under.
    fn serve(&mut self, caller: u64, request: &Request) -> Answer
        requires { write_permit self.old.standing ≡ None }
        ensures does { ServesFiles (history self.old) (parts_of self.old) caller request.now result (history self.new) (parts_of self.new) (said_to self.new) }
        ensures safe { IsTrue (D.honest self.old.store.disk) → StepsSafely (seen (history self.old) (parts_of self.old)) laws.File
            (law_answer result) (seen (history self.new) (parts_of self.new)) (history self.old) (history self.new) }
        ensures standing { self.new.standing ≡ self.old.standing }
        ensures honest { D.honest self.new.store.disk ≡ D.honest self.old.store.disk }
    {
        replica_requests_leave_the_database();
        self.view.sound();
        match prepare(
            &mut self.store,
            &mut self.view,
            self.alloc,
            caller,
            &self.standing,
            request,
        ) {
            Ok(Plan::Reply(reply)) => Answer::Done(reply),
            Ok(Plan::Silent) => Answer::Quiet,
            Ok(Plan::Commit { reply, change }) => {
                if let Some(number) = self.standing.commit_refusal() {
                    self.view.abandon();
                    return Answer::Refuse(number);
                }
                let kept = self.config.retention.max(1);
                match self
                    .store
                    .commit_and_prune(change, self.standing.moment, self.config.node, kept)
                {
                    Ok(position) => {
                        self.view.commit_done();
                        self.view.told_position(position);
                        Answer::Done(reply)
                    }
                    Err(fault) => {
                        self.view.abandon();
                        Answer::Refuse(errno_of_store(&self.store.disk, fault))
                    }
                }
            }
            Err(fault) => Answer::Refuse(errno_of_view(fault)),
        }
    }

    /// Answers a request by the files' rules: what it commits is committed, or sent.
    fn serve_files(&mut self, caller: u64, request: &Request) -> Answer
        ensures does { ServesFiles (history self.old) (parts_of self.old) caller request.now result (history self.new) (parts_of self.new) (said_to self.new) }
        ensures safe { IsTrue (D.honest self.old.store.disk) → StepsSafely (seen (history self.old) (parts_of self.old)) laws.File
            (law_answer result) (seen (history self.new) (parts_of self.new)) (history self.old) (history self.new) }
        ensures standing { self.new.standing ≡ self.old.standing }
        ensures honest { D.honest self.new.store.disk ≡ D.honest self.old.store.disk }
    {
        match self.standing.write_permit() {
            Some(pass) => self.serve_halted(caller, pass, request),
            None => self.serve(caller, request),
        }
    }

    /// Whether a request is to be asked again: of a new reader while a frame is held back, or of a
    /// writer while a permit is out.
    fn is_put_off(&self, caller: u64, request: &Request) -> bool
        ensures { result ≡ (is_kept_out (parts_of self.now) caller request.now || is_barred (parts_of self.now) request.now) }
    {
        self.is_kept_out(caller, request) || self.is_barred(request)
    }

    /// Answers a request: UNLINK of the database file is the node's own, new readers are kept out while
    /// a frame is held back, and writers while a permit is out.
    fn answer_request(&mut self, caller: u64, request: &Request) -> Answer
        ensures does { AnswersFile (unlinks_database self.old.config request.now) (history self.old) (parts_of self.old) caller request.now
            result (history self.new) (parts_of self.new) (said_to self.new) }
        ensures safe { IsTrue (D.honest self.old.store.disk) → StepsSafely (seen (history self.old) (parts_of self.old)) laws.File
            (law_answer result) (seen (history self.new) (parts_of self.new)) (history self.old) (history self.new) }
        ensures standing { self.new.standing ≡ self.old.standing }
        ensures honest { D.honest self.new.store.disk ≡ D.honest self.old.store.disk }
    {
        if self.unlinks_database(request) {
            self.unlink_database()
        } else if self.is_put_off(caller, request) {
            Answer::Refuse(EAGAIN)
        } else {
            self.serve_files(caller, request)
        }
    }

    /// Answers a request, at a moment.
    pub(crate) fn answer_file(&mut self, caller: u64, now: u64, request: &Request) -> Answer
        ensures step { IsStep (history self.old) (parts_of self.old) caller (Ask.File now request.now) result (history self.new) (parts_of self.new) (said_to self.new) }
    {
        moment_is_of_step();
        self.at_moment(now);
        self.answer_request(caller, request)
    }
}
