//! The node's leave to pass a request on.
ghost use Rattle.std.specs.Prelude.{◌≡◌, Err, IfOk, MatchBool, OnErr};
ghost use Rattle.lf_base.specs.declared.session_end.SessionEnd.TheVariants as ends;
ghost use Rattle.file_view.specs.Errno.{EINVAL};
ghost use Rattle.link_session.specs.Stands.{asker, AsksOn};
ghost use Rattle.node_core.specs.declared.answer.Answer.TheVariants as answers;
ghost use Rattle.txid_proxy.specs.Asking.{AsksOwn, EndsAsks};
ghost use Rattle.txid_proxy.specs.Leave.{Grants, Probes};
ghost use Rattle.txid_proxy.specs.Spending.{SpendsAsks};

use crate::asking::ask_file;
use crate::denial::Denial;
use crate::waiting::{Waited, wait};
use crate::wish::Wish;
use fuse_msgs::Op;
use lf_base::{Clock, Pause, SessionEnd};
use link_session::{Steps, Turns};
use node_core::{Answer, Ask};

/// The node of the database file.
const DATABASE: u64 = 2;

/// The answer of a node that takes writes, `EINVAL`.
const WRONG_SIZE: u32 = 22;

/// Asks the node whether a request with this wish may be passed on, and answers why not: a read waits until the
/// node has its floor; a write is probed.
pub(crate) fn ask_leave<S: Steps<Ask = Ask, Answer = Answer>, C: Clock, P: Pause>(
    steps: &mut S,
    clock: &mut C,
    pause: &mut P,
    wish: Wish,
    turns: &mut Turns,
) -> Result<Option<Denial>, SessionEnd>
    ensures grants { IfOk result (Grants (asker S.Steps C.Clock steps.old clock.old) wish (S.entries steps.old) (S.entries steps.new)) }
    ensures asked { OnErr result (AsksOwn (S.number steps.old) (S.entries steps.old) (S.entries steps.new)) }
    ensures same { AsksOn S.Steps C.Clock steps.old steps.new clock.old clock.new }
    ensures spent { SpendsAsks turns.old (S.entries steps.old) turns.new (S.entries steps.new) result }
    ensures cause { EndsAsks turns.new result }
    ensures worn { result ≡ Err ends.Worn → S.is_worn steps.new }
{
    if !wish.reads {
        return probe(steps, clock, turns);
    }
    match wait(steps, clock, pause, wish.floor, turns) {
        Ok(Waited::Reached) => Ok(None),
        Ok(Waited::Behind) => Ok(Some(Denial::Behind)),
        Err(end) => Err(end),
    }
}

/// Asks whether the node takes writes, by a request that changes nothing.
fn probe<S: Steps<Ask = Ask, Answer = Answer>, C: Clock>(
    steps: &mut S,
    clock: &mut C,
    turns: &mut Turns,
) -> Result<Option<Denial>, SessionEnd>
    ensures probes { IfOk result (Probes (asker S.Steps C.Clock steps.old clock.old) (S.entries steps.old) (S.entries steps.new)) }
    ensures still { OnErr result (S.entries steps.new ≡ S.entries steps.old) }
    ensures same { AsksOn S.Steps C.Clock steps.old steps.new clock.old clock.new }
    ensures spent { SpendsAsks turns.old (S.entries steps.old) turns.new (S.entries steps.new) result }
    ensures cause { EndsAsks turns.new result }
    ensures worn { result ≡ Err ends.Worn → S.is_worn steps.new }
{
    let probe = Op::Setattr {
        size: Some(1),
        owner: None,
    };
    match ask_file(steps, clock, DATABASE, probe, turns) {
        Ok(answer) if takes_writes(&answer) => Ok(None),
        Ok(_) => Ok(Some(Denial::NotPrimary)),
        Err(end) => Err(end),
    }
}

fn takes_writes(answer: &Answer) -> bool
    ensures { MatchBool result (answer.now ≡ answers.Refuse EINVAL) (answer.now ≡ answers.Refuse EINVAL → ⊥) }
{
    match answer {
        Answer::Refuse(errno) => errno.0 == WRONG_SIZE,
        _ => false,
    }
}
