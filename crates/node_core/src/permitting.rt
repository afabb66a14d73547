//! Write permits: given out, taken back, got and lost.
ghost use Rattle.std.specs.Prelude.{◌≡◌, ℕ, IsTrue};
ghost use Rattle.node_core.specs.Leasing.{StepsAs};
ghost use Rattle.node_core.specs.Nodes.{history, parts_of, said_to, seen};
ghost use Rattle.node_core.specs.Permitting.{AnswersHaltAsk, AnswersHaltBack, GetsPermit, unless_number, writing_lock};
ghost use Rattle.node_core.specs.Safely.{law_answer};
ghost use Rattle.node_core.specs.Steps.{IsStep};
ghost use Rattle.world_laws.specs.Node as laws;

use crate::answer::Answer;
use crate::ask::Ask;
use crate::node::Node;
use crate::refusal::Refusal;
use crate::standing::Standing;
use byte_locks::LockId;
use file_view::{Role, View};
use halt_forward::{HaltFault, HaltPass};
use lf_disk::Disk;
use world_laws::moment_is_of_step;

/// The locks that only a writer takes.
const WRITERS: [LockId; 2] = [LockId::Reserved, LockId::Write];

/// The first of them that anybody holds.
fn writing_lock(view: &View) -> Option<LockId>
    ensures { result ≡ writing_lock view.now }
{
    WRITERS.iter().copied().find(|lock| view.held(*lock))
}

/// The permit, unless it has this number.
fn unless_number(number: u64, pass: Option<HaltPass>) -> Option<HaltPass>
    ensures { result ≡ unless_number number pass }
{
    pass.filter(|pass| pass.number != number)
}

impl<D: Disk> Node<D> {
    /// Gives the next permit out, while nobody writes.
    fn give_permit(&mut self, node: u64) -> Answer
        ensures does { AnswersHaltAsk (history self.old) (parts_of self.old) result (history self.new) (parts_of self.new) }
        ensures safe { IsTrue (D.honest self.old.store.disk) → StepsAs (seen (history self.old) (parts_of self.old)) laws.Permit
            (law_answer result) (seen (history self.new) (parts_of self.new)) (history self.old) (history self.new) }
        ensures belief { self.new.standing.belief ≡ self.old.standing.belief }
        ensures moment { self.new.standing.moment ≡ self.old.standing.moment }
        ensures honest { D.honest self.new.store.disk ≡ D.honest self.old.store.disk }
    {
        if !self.leads() {
            return Answer::Refused(Refusal::NotPrimary);
        }
        if let Some(HaltPass { number, until }) = self.standing.given_out() {
            return Answer::Refused(Refusal::Halt(HaltFault::HaltHeld { number, until }));
        }
        if let Some(lock) = writing_lock(&self.view) {
            return Answer::Held(lock);
        }
        let mut permits = self.standing.permits;
        match permits.grant(self.standing.moment, node) {
            Ok(pass) => {
                self.standing.permits = permits;
                Answer::Pass(pass)
            }
            Err(fault) => Answer::Refused(Refusal::Halt(fault)),
        }
    }

    /// Takes the permit of this number back.
    fn take_permit_back(&mut self, number: u64) -> Answer
        ensures does { AnswersHaltBack (history self.old) (parts_of self.old) number result (history self.new) (parts_of self.new) }
        ensures safe { IsTrue (D.honest self.old.store.disk) → StepsAs (seen (history self.old) (parts_of self.old)) laws.Permit
            (law_answer result) (seen (history self.new) (parts_of self.new)) (history self.old) (history self.new) }
        ensures belief { self.new.standing.belief ≡ self.old.standing.belief }
        ensures moment { self.new.standing.moment ≡ self.old.standing.moment }
        ensures honest { D.honest self.new.store.disk ≡ D.honest self.old.store.disk }
    {
        if !self.leads() {
            return Answer::Refused(Refusal::NotPrimary);
        }
        let mut permits = self.standing.permits;
        match permits.give_back(self.standing.moment, number) {
            Ok(()) => {
                self.standing.permits = permits;
                Answer::Quiet
            }
            Err(fault) => Answer::Refused(Refusal::Halt(fault)),
        }
    }

    /// A replica has this permit from now on.
    fn get_permit(&mut self, pass: HaltPass) -> Answer
        ensures does { GetsPermit (history self.old) (parts_of self.old) pass result (history self.new) (parts_of self.new) }
        ensures safe { IsTrue (D.honest self.old.store.disk) → StepsAs (seen (history self.old) (parts_of self.old)) laws.Permit
            (law_answer result) (seen (history self.new) (parts_of self.new)) (history self.old) (history self.new) }
        ensures belief { self.new.standing.belief ≡ self.old.standing.belief }
        ensures moment { self.new.standing.moment ≡ self.old.standing.moment }
        ensures honest { D.honest self.new.store.disk ≡ D.honest self.old.store.disk }
    {
        match self.role() {
            Role::Replica => {
                let standing = Standing {
                    pass: Some(pass),
                    ..self.standing
                };
                self.stand(standing);
                Answer::Quiet
            }
            Role::Primary | Role::Halted => Answer::Quiet,
        }
    }

    /// The node has the permit of this number no more.
    pub(crate) fn lose_permit(&mut self, number: u64) -> Answer
        ensures step { (caller : ℕ) → IsStep (history self.old) (parts_of self.old) caller (Ask.HaltLost number)
            result (history self.new) (parts_of self.new) (said_to self.new) }
    {
        let pass = unless_number(number, self.standing.pass);
        let standing = Standing {
            pass,
            ..self.standing
        };
        self.stand(standing);
        Answer::Quiet
    }

    /// Gives a permit out, at a moment.
    pub(crate) fn answer_halt_ask(&mut self, now: u64, node: u64) -> Answer
        ensures step { (caller : ℕ) → IsStep (history self.old) (parts_of self.old) caller (Ask.HaltAsk now node)
            result (history self.new) (parts_of self.new) (said_to self.new) }
    {
        moment_is_of_step();
        self.at_moment(now);
        self.give_permit(node)
    }

    /// Takes a permit back, at a moment.
    pub(crate) fn answer_halt_back(&mut self, now: u64, number: u64) -> Answer
        ensures step { (caller : ℕ) → IsStep (history self.old) (parts_of self.old) caller (Ask.HaltBack now number)
            result (history self.new) (parts_of self.new) (said_to self.new) }
    {
        moment_is_of_step();
        self.at_moment(now);
        self.take_permit_back(number)
    }

    /// Gets a permit, at a moment.
    pub(crate) fn answer_halt_got(&mut self, now: u64, pass: HaltPass) -> Answer
        ensures step { (caller : ℕ) → IsStep (history self.old) (parts_of self.old) caller (Ask.HaltGot now pass)
            result (history self.new) (parts_of self.new) (said_to self.new) }
    {
        moment_is_of_step();
        self.at_moment(now);
        self.get_permit(pass)
    }
}
