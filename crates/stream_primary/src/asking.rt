//! One ask of the node, and its answer as the reply.
ghost use Rattle.std.specs.Prelude.{◌≡◌, Err};
ghost use Rattle.std.specs.Io.KnownBytes.{Keeps};
ghost use Rattle.lf_base.specs.declared.session_end.SessionEnd.TheVariants as ends;
ghost use Rattle.link_session.specs.Stands.{stand, GoesOn, Spends};
ghost use Rattle.stream_primary.specs.Asking.{ServesAsk};

use crate::replies::reply_to;
use lf_base::{Link, SessionEnd};
use link_session::{Steps, Turns, take_step};
use node_core::{Answer, Ask};
use std::alloc::Global;

/// Asks once, and ends the session with the reply to the answer.
pub fn ask_once<S: Steps<Ask = Ask, Answer = Answer>, L: Link>(
    alloc: Global,
    steps: &mut S,
    link: &mut L,
    ask: &Ask,
    turns: &mut Turns,
) -> SessionEnd
    ensures serves { ServesAsk (S.number steps.old) ask.now (stand L.Link link.old (S.entries steps.old)) (stand L.Link link.new (S.entries steps.new)) turns.new result }
    ensures left { Keeps (L.left link.old) (L.left link.new) }
    ensures same { (S.of steps.new ≡ S.of steps.old) × (S.number steps.new ≡ S.number steps.old) × GoesOn S.Steps steps.old steps.new }
    ensures spent { Spends {T = Unit {0}} turns.old (stand L.Link link.old (S.entries steps.old)) turns.new (stand L.Link link.new (S.entries steps.new)) (Err result) }
    ensures worn { result ≡ ends.Worn → S.is_worn steps.new }
{
    match take_step(steps, ask, turns) {
        Ok(answer) => reply_to(alloc, link, &answer, turns),
        Err(end) => end,
    }
}
