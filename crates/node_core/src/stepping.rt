//! The node as one machine.
ghost use Rattle.std.specs.Prelude.{◌≡◌, ℕ};
ghost use Rattle.node_core.specs.Nodes.{history, parts_of, said_to};
ghost use Rattle.node_core.specs.Steps.{IsStep};

use crate::answer::Answer;
use crate::ask::Ask;
use crate::node::Node;
use crate::refusal::refusal_of;
use crate::whereabouts::Whereabouts;
use lf_disk::Disk;
use turn_desk::Machine;

impl<D: Disk> Node<D> {
    /// The session of this caller has ended.
    fn end_session(&mut self, caller: u64) -> Answer
        ensures step { IsStep (history self.old) (parts_of self.old) caller Ask.EndSession result (history self.new) (parts_of self.new) (said_to self.new) }
    {
        self.give_up_of(caller);
        self.view.sound();
        self.view.end_session(caller);
        Answer::Quiet
    }

    /// Where the node stands. The store is read for the checksum of its last file.
    fn tell_position(&mut self) -> Answer
        ensures step { (caller : ℕ) → IsStep (history self.old) (parts_of self.old) caller Ask.Where result (history self.new) (parts_of self.new) (said_to self.new) }
    {
        let pos = self.store.pos();
        match self.store.last_file() {
            Ok(last) => Answer::At(Whereabouts { pos, last }),
            Err(fault) => Answer::Refused(refusal_of(fault)),
        }
    }
}

impl<D: Disk> Machine for Node<D> {
    type Ask = Ask;

    type Answer = Answer;

    ghost steps = { λ old caller ask answer new. IsStep (history old) (parts_of old) caller ask answer (history new) (parts_of new) (said_to new) };

    fn step(&mut self, caller: u64, ask: &Ask) -> Answer {
        match ask {
            Ask::File { now, request } => self.answer_file(caller, *now, request),
            Ask::EndSession => self.end_session(caller),
            Ask::Where => self.tell_position(),
            Ask::Hello { now, pos, last } => self.answer_hello(*now, *pos, *last),
            Ask::Frame { now, bytes } => self.answer_frame(*now, bytes),
            Ask::Drop { now } => self.answer_drop(*now),
            Ask::Export => self.export(),
            Ask::Import { now, bytes } => self.answer_import(*now, bytes),
            Ask::Prune { keep } => self.prune(*keep),
            Ask::Info { now } => self.answer_info(*now),
            Ask::Watch { now, pos } => self.answer_watch(*now, *pos),
            Ask::Lease { now, news } => self.answer_lease(*now, news),
            Ask::HaltAsk { now, node } => self.answer_halt_ask(*now, *node),
            Ask::HaltBack { now, number } => self.answer_halt_back(*now, *number),
            Ask::Forward { now, number, bytes } => self.answer_forward(*now, *number, bytes),
            Ask::HaltGot { now, pass } => self.answer_halt_got(*now, *pass),
            Ask::HaltLost { number } => self.lose_permit(*number),
            Ask::Forwarded { ok } => self.answer_forwarded(*ok),
        }
    }

    /// Changes with the last transaction, with whether the node leads, and, while something counts as
    /// held back, once no lock holds it back any more: then who rests beside the desk looks again.
    fn news(&self) -> u64 {
        let free = self.is_held_back() && self.view.apply_clear(self.store.wal).is_ok();
        let bits = (u64::from(free) << 1) | u64::from(self.leads());
        self.store.pos().txid.wrapping_mul(4) | bits
    }
}
