//! Where the node stands.
ghost use Rattle.std.specs.Prelude.{◌≡◌, length, IfErr};
ghost use Rattle.link_session.specs.Stands.{GoesOn};
ghost use Rattle.replica_apply.specs.declared.follow_end.FollowEnd.TheVariants as ends;
ghost use Rattle.replica_apply.specs.Following.{place_in, Asks, SaysWhere};

use crate::follow_end::FollowEnd;
use link_session::{Steps, Turns};
use node_core::{Answer, Ask, Whereabouts};

/// Asks the node, once, where it stands. It is a turn.
pub fn ask_where<S: Steps<Ask = Ask, Answer = Answer>>(
    steps: &mut S,
    turns: &mut Turns,
) -> Result<Whereabouts, FollowEnd>
    ensures says { SaysWhere (S.number steps.old) (S.entries steps.old) (S.entries steps.new) turns.new result }
    ensures same { (S.of steps.new ≡ S.of steps.old) × (S.number steps.new ≡ S.number steps.old) × GoesOn S.Steps steps.old steps.new }
    ensures spent { Asks turns.old (length (S.entries steps.old)) turns.new (length (S.entries steps.new)) result }
    ensures worn { IfErr result (λ end. end ≡ ends.Worn → S.is_worn steps.new) }
{
    match turns.take() {
        Ok(()) => {}
        Err(_) => return Err(FollowEnd::Turns),
    }
    match steps.ask(&Ask::Where) {
        Ok(answer) => place_in(answer),
        Err(_) => Err(FollowEnd::Worn),
    }
}

/// What an answer says of where the node stands.
fn place_in(answer: Answer) -> Result<Whereabouts, FollowEnd>
    ensures { result ≡ place_in answer }
{
    match answer {
        Answer::At(here) => Ok(here),
        Answer::Refused(refusal) => Err(FollowEnd::Refused(refusal)),
        Answer::Done(_)
        | Answer::Quiet
        | Answer::Refuse(_)
        | Answer::Level(_)
        | Answer::Item { .. }
        | Answer::Gone
        | Answer::Applied(_)
        | Answer::Same(_)
        | Answer::Held(_)
        | Answer::Pruned(_)
        | Answer::Send { .. }
        | Answer::Pass(_)
        | Answer::Bytes(_)
        | Answer::Info(_)
        | Answer::Watched { .. } => Err(FollowEnd::OddAnswer),
    }
}
