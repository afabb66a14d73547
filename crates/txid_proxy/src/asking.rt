//! One ask of the node.
ghost use Rattle.std.specs.Prelude.{◌≡◌, length, IfOk, OnErr};
ghost use Rattle.link_session.specs.Asking.{EndsAsking};
ghost use Rattle.link_session.specs.Spending.{AsksFor};
ghost use Rattle.link_session.specs.Stands.{asker, AsksOn};
ghost use Rattle.txid_proxy.specs.Asking.{IsFileAsked};

use fuse_msgs::{Op, Request};
use lf_base::{Clock, SessionEnd};
use link_session::{Steps, Turns, take_step};
use node_core::{Answer, Ask};

/// Asks a request on the served files, at a moment that the clock gives.
pub(crate) fn ask_file<S: Steps<Ask = Ask, Answer = Answer>, C: Clock>(
    steps: &mut S,
    clock: &mut C,
    node: u64,
    op: Op,
    turns: &mut Turns,
) -> Result<Answer, SessionEnd>
    ensures asked { IfOk result (IsFileAsked (asker S.Steps C.Clock steps.old clock.old) node op (S.entries steps.old) (S.entries steps.new)) }
    ensures still { OnErr result (S.entries steps.new ≡ S.entries steps.old) }
    ensures same { AsksOn S.Steps C.Clock steps.old steps.new clock.old clock.new }
    ensures spent { AsksFor result turns.old (length (S.entries steps.old)) turns.new (length (S.entries steps.new)) }
    ensures cause { EndsAsking (S.is_worn steps.new) turns.new result }
{
    let request = Request {
        unique: 0,
        node,
        pid: 0,
        op,
    };
    let now = clock.now_ms();
    take_step(steps, &Ask::File { now, request }, turns)
}
