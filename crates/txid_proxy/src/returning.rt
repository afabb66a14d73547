//! What comes back to the client of a request that was passed on.
ghost use Rattle.std.specs.Prelude.{◌≡◌, ℕ, IfOk, Err, MatchOption, Option, List};
ghost use Rattle.http_exchange.specs.declared.told.Untold.TheVariants as untold;
ghost use Rattle.lf_base.specs.Dials.{Dial};
ghost use Rattle.lf_base.specs.declared.session_end.SessionEnd.TheVariants as ends;
ghost use Rattle.link_session.specs.Stands.{GoesOn};
ghost use Rattle.node_core.specs.declared.answer.Answer.TheVariants as answers;
ghost use Rattle.txid_proxy.specs.Passing.{IsReply};
ghost use Rattle.txid_proxy.specs.Session.{IsNowhere, Marks, Returns, post};

use crate::replies::{give_back_as_it_is, give_back_marked, refuse};
use http_exchange::Untold;
use lf_base::{Bytes, Link, SessionEnd};
use link_session::{Steps, Turns, take_step};
use node_core::{Answer, Ask, Whereabouts};
use std::alloc::Global;

/// The status of a target that gives no reply.
const BAD_GATEWAY: u16 = 502;

/// Gives back what came of the target, to the end of the session.
pub(crate) fn give_back<S: Steps<Ask = Ask, Answer = Answer>, L: Link>(
    alloc: Global,
    steps: &mut S,
    link: &mut L,
    came: Result<Bytes, Untold>,
    reads: bool,
    turns: &mut Turns,
) -> SessionEnd
    requires reply { IfOk came IsReply }
    requires turns { came ≡ Err untold.Turns → turns.old ≡ 0 }
    ensures returns { (dials dials_now : Option (List Dial)) (faults faults_now : ℕ) → Returns reads (S.number steps.old) came (post L.Link link.old
        (S.entries steps.old) dials faults) (post L.Link link.new (S.entries steps.new) dials_now faults_now) turns.new result }
    ensures same { (S.of steps.new ≡ S.of steps.old) × (S.number steps.new ≡ S.number steps.old) × GoesOn S.Steps steps.old steps.new }
    ensures worn { result ≡ ends.Worn → S.is_worn steps.new }
{
    match came {
        Ok(reply) => {
            if reads {
                give_back_as_it_is(link, reply.as_slice(), turns)
            } else {
                mark(alloc, steps, link, reply.as_slice(), turns)
            }
        }
        Err(Untold::Turns) => SessionEnd::Turns,
        Err(Untold::NoMemory) => SessionEnd::NoMemory,
        Err(_) => refuse(alloc, link, BAD_GATEWAY, turns),
    }
}

/// Asks where the node stands, and gives the reply to a write back with its transaction.
fn mark<S: Steps<Ask = Ask, Answer = Answer>, L: Link>(
    alloc: Global,
    steps: &mut S,
    link: &mut L,
    reply: &[u8],
    turns: &mut Turns,
) -> SessionEnd
    requires { IsReply reply.now }
    ensures marks { (dials dials_now : Option (List Dial)) (faults faults_now : ℕ) → Marks (S.number steps.old) reply.now (post L.Link link.old
        (S.entries steps.old) dials faults) (post L.Link link.new (S.entries steps.new) dials_now faults_now) turns.new result }
    ensures same { (S.of steps.new ≡ S.of steps.old) × (S.number steps.new ≡ S.number steps.old) × GoesOn S.Steps steps.old steps.new }
    ensures worn { result ≡ ends.Worn → S.is_worn steps.new }
{
    let answer = match take_step(steps, &Ask::Where, turns) {
        Ok(answer) => answer,
        Err(end) => return end,
    };
    match place_in(&answer) {
        Some(here) => give_back_marked(alloc, link, reply, here.pos.txid, turns),
        None => give_back_as_it_is(link, reply, turns),
    }
}

/// Where an answer says that the node stands.
fn place_in(answer: &Answer) -> Option<Whereabouts>
    ensures { MatchOption result (IsNowhere answer.now) (λ here. answer.now ≡ answers.At here) }
{
    match answer {
        Answer::At(here) => Some(*here),
        _ => None,
    }
}
