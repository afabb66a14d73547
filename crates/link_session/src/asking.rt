//! One ask.
ghost use Rattle.std.specs.Prelude.{◌≡◌, ◌++◌, ◌∷◌, [], length, IfOk, OnErr};
ghost use Rattle.link_session.specs.Asking.{EndsAsking};
ghost use Rattle.link_session.specs.Spending.{AsksFor};
ghost use Rattle.link_session.specs.Stands.{GoesOn};
ghost use Rattle.turn_desk.specs.History.{entry};

use crate::session::Turns;
use crate::steps::Steps;
use lf_base::SessionEnd;

/// Asks, which is a turn.
pub fn take_step<S: Steps<Ask = Q, Answer = A>, Q, A>(
    steps: &mut S,
    ask: &Q,
    turns: &mut Turns,
) -> Result<A, SessionEnd>
    ensures asked { IfOk result (λ answer. S.entries steps.new ≡ S.entries steps.old ++ entry (S.number steps.old) ask.now answer ∷ []) }
    ensures still { OnErr result (S.entries steps.new ≡ S.entries steps.old) }
    ensures same { (S.of steps.new ≡ S.of steps.old) × (S.number steps.new ≡ S.number steps.old) × GoesOn S.Steps steps.old steps.new }
    ensures spent { AsksFor result turns.old (length (S.entries steps.old)) turns.new (length (S.entries steps.new)) }
    ensures cause { EndsAsking (S.is_worn steps.new) turns.new result }
{
    match turns.take() {
        Ok(()) => {}
        Err(_) => return Err(SessionEnd::Turns),
    }
    match steps.ask(ask) {
        Ok(answer) => Ok(answer),
        Err(_) => Err(SessionEnd::Worn),
    }
}
