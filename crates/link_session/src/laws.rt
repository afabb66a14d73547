//! Laws of the definitions, each proved as the contract of a function that does nothing.
ghost use Rattle.std.specs.Prelude.{◌≡◌, ◌++◌, ℕ, Bool, List, Option, [], IsTrue};
ghost use Rattle.std.specs.Io.KnownBytes.{Keeps};
ghost use Rattle.link_session.specs.declared.stage.Stage.TheVariants as stages;
ghost use Rattle.link_session.specs.Reading.{Held, coming};
ghost use Rattle.link_session.specs.Rounds.{Round, Place, Talked, Answered};
ghost use Rattle.link_session.specs.Runs.{HasRun};
ghost use Rattle.link_session.specs.Seats.{HasGoneOn};
ghost use Rattle.turn_desk.specs.declared.history.Entry.{Entry};
ghost use Rattle.turn_desk.specs.declared.view.SeatView.{SeatView};

use turn_desk::Machine;

/// A conversation of entries of any kind: nothing said is one; and a message that is read, answered and
/// taken out is one round more.
#[tactic(auto, using(crate::proofs::Talking::nothing_said))]
pub fn rounds_follow<E>()
    ensures none { (is : Round E → Bool) (place : Place E) → Talked (λ round. IsTrue (is round)) place place }
    ensures more { (is : Round E → Bool) (start : Place E) (before read after : Held) (l0 l1 l2 t0 t1 t2 : Option (List ℕ)) (e0 e1 : List E)
        → Talked (λ round. IsTrue (is round)) start (record { text = coming before l0; taken = t0; entries = e0 })
        → Keeps (coming before l0) (coming read l1) → Keeps t0 t1
        → Answered (λ round. IsTrue (is round)) read.message t1 t2 e0 e1 → Keeps l1 l2
        → after ≡ record read { message = []; stage = stages.Open }
        → Talked (λ round. IsTrue (is round)) start (record { text = coming after l2; taken = t2; entries = e1 }) }
{}

/// A seat that was in use stands in one run of its machine, from the state on which the desk was opened: the calls
/// that it made meanwhile are steps of that run, each with how the machine stood before it and behind it.
pub fn seats_are_in_runs<M: Machine>()
    ensures { (opened : M) (number : ℕ) (before after : SeatView M M.Ask M.Answer) (entries : List (Entry M.Ask M.Answer))
        → HasGoneOn M.steps opened number before after → after.mine ≡ before.mine ++ entries → HasRun M.steps opened number before after entries }
{}
