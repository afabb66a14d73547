//! How a frame is asked again.
ghost use Rattle.std.specs.Prelude.{◌≡◌};
ghost use Rattle.node_core.specs.Moments.{ask_at};
ghost use Rattle.node_core.proofs.Moments.{last_stands};
ghost use Rattle.replica_apply.specs.Asking.{is_held};

use link_session::Patience;
use node_core::{Answer, Ask};

/// A frame is asked again while a lock holds it back.
#[derive(Clone, Copy, Debug, PartialEq, Eq)]
pub struct WhileHeld;

impl Patience for WhileHeld {
    type Ask = Ask;

    type Answer = Answer;

    ghost at_moment = { ask_at };

    ghost again = { λ patience answer. is_held answer };

    fn set_moment(&self, ask: &mut Ask, moment: u64) {
        ask.set_moment(moment);
    }

    fn is_again(&self, answer: &Answer) -> bool {
        matches!(answer, Answer::Held(_))
    }

    ghost last_stands = { last_stands };
}
