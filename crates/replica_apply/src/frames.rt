//! One frame: it is asked until no lock holds it back.
ghost use Rattle.std.specs.Prelude.{ℕ, List, ◌≡◌, length, IfErr, MatchBool};
ghost use Rattle.link_session.specs.Sessions.{asker_of, SessionGoesOn};
ghost use Rattle.stream_wire.specs.Frame.{frame_text};
ghost use Rattle.replica_apply.specs.declared.follow_end.FollowEnd.TheVariants as ends;
ghost use Rattle.replica_apply.specs.Asking.{IsAskOf};
ghost use Rattle.replica_apply.specs.Following.{Asks};
ghost use Rattle.replica_apply.specs.Frames.{said_by, EndsFrame};

use crate::follow_end::FollowEnd;
use crate::patience::WhileHeld;
use lf_base::{Clock, Name, Pause, SessionEnd};
use link_session::{Session, Steps};
use node_core::{Answer, Ask};
use stream_wire::Frame;

/// Does with a frame what it asks for. A file and a drop are asked again, after a nap, while a lock
/// holds them back.
pub fn follow_frame<S: Steps<Ask = Ask, Answer = Answer>, L, C: Clock, P: Pause>(
    session: &mut Session<L, C, P>,
    steps: &mut S,
    name: &Name,
    frame: Frame,
) -> Result<(), FollowEnd>
    ensures end { EndsFrame (asker_of S.Steps C.Clock session.old steps.old) name.now (frame_text frame) (S.entries steps.old) (S.entries steps.new) session.new.turns result }
    ensures same { SessionGoesOn S.Steps C.Clock session.old session.new steps.old steps.new }
    ensures link { session.new.link ≡ session.old.link }
    ensures spent { Asks session.old.turns (length (S.entries steps.old)) session.new.turns (length (S.entries steps.new)) result }
    ensures worn { IfErr result (λ end. end ≡ ends.Worn → S.is_worn steps.new) }
{
    match frame {
        Frame::Ltx { name: of, bytes } => {
            if is_same(&of, name) {
                apply(session, steps, Ask::Frame { now: 0, bytes })
            } else {
                Err(FollowEnd::BadFrame)
            }
        }
        Frame::Drop { name: of } => {
            if is_same(&of, name) {
                apply(session, steps, Ask::Drop { now: 0 })
            } else {
                Err(FollowEnd::BadFrame)
            }
        }
        Frame::Ready { name: of, .. } => {
            if is_same(&of, name) {
                Ok(())
            } else {
                Err(FollowEnd::BadFrame)
            }
        }
        Frame::End => Err(FollowEnd::Ended),
    }
}

fn is_same(one: &Name, other: &Name) -> bool
    ensures { MatchBool result (one.now ≡ other.now) (one.now ≡ other.now → ⊥) }
{
    one.bytes() == other.bytes()
}

/// Asks until no lock holds it back, and goes on only where it is applied, or the node has it already.
fn apply<S: Steps<Ask = Ask, Answer = Answer>, L, C: Clock, P: Pause>(
    session: &mut Session<L, C, P>,
    steps: &mut S,
    ask: Ask,
) -> Result<(), FollowEnd>
    ensures end { (name text : List ℕ) → IsAskOf name text ask
        → EndsFrame (asker_of S.Steps C.Clock session.old steps.old) name text (S.entries steps.old) (S.entries steps.new) session.new.turns result }
    ensures same { SessionGoesOn S.Steps C.Clock session.old session.new steps.old steps.new }
    ensures link { session.new.link ≡ session.old.link }
    ensures spent { Asks session.old.turns (length (S.entries steps.old)) session.new.turns (length (S.entries steps.new)) result }
    ensures worn { IfErr result (λ end. end ≡ ends.Worn → S.is_worn steps.new) }
{
    match session.ask_until(steps, ask, &WhileHeld) {
        Ok(answer) => said_by(answer),
        Err(SessionEnd::Turns) => Err(FollowEnd::Turns),
        Err(SessionEnd::Worn) => Err(FollowEnd::Worn),
        Err(
            SessionEnd::Closed
            | SessionEnd::ReadFault
            | SessionEnd::WriteFault
            | SessionEnd::BadMessage
            | SessionEnd::NoMemory,
        ) => unreachable!(),
    }
}

/// What an answer says of its frame.
fn said_by(answer: Answer) -> Result<(), FollowEnd>
    ensures { result ≡ said_by answer }
{
    match answer {
        Answer::Applied(_) | Answer::Same(_) => Ok(()),
        Answer::Refused(refusal) => Err(FollowEnd::Refused(refusal)),
        Answer::Done(_)
        | Answer::Quiet
        | Answer::Refuse(_)
        | Answer::At(_)
        | Answer::Level(_)
        | Answer::Item { .. }
        | Answer::Gone
        | Answer::Held(_)
        | Answer::Pruned(_)
        | Answer::Send { .. }
        | Answer::Pass(_)
        | Answer::Bytes(_)
        | Answer::Info(_)
        | Answer::Watched { .. } => Err(FollowEnd::OddAnswer),
    }
}
