//! A read waits until the node has the transaction that its client has seen.
ghost use Rattle.std.specs.Prelude.{◌≡◌, ◌+◌, ◌≤◌, nat_lt, length, IfOk, OnErr};
ghost use Rattle.link_session.specs.Asking.{AskedInVain, EndsAsking};
ghost use Rattle.link_session.specs.Spending.{AsksFor};
ghost use Rattle.link_session.specs.Stands.{asker, AsksOn};
ghost use Rattle.node_core.specs.declared.ask.Ask.TheVariants as asks;
ghost use Rattle.node_core.specs.Moments.{ask_at};
ghost use Rattle.txid_proxy.specs.Asking.{Waits, asks_max, below, txid_told};
ghost use Rattle.node_core.proofs.Moments.{last_stands};

use lf_base::{Clock, Pause, SessionEnd};
use link_session::{Patience, Steps, Turns, ask_until};
use node_core::{Answer, Ask};

/// How often Where is asked at most.
const ASKS_MAX: u64 = 100;

/// Whether a node has come to the transaction that a client has seen.
#[derive(Clone, Copy, Debug, PartialEq, Eq)]
pub(crate) enum Waited {
    Reached,
    /// It was asked so often as is asked at most.
    Behind,
}

/// A client's floor: below it Where is asked again.
#[derive(Clone, Copy)]
struct Floor {
    txid: u64,
}

impl Patience for Floor {
    type Ask = Ask;

    type Answer = Answer;

    ghost at_moment = { ask_at };

    ghost again = { λ floor answer. nat_lt (txid_told answer) floor.txid };

    fn set_moment(&self, ask: &mut Ask, now: u64) {
        ask.set_moment(now);
    }

    fn is_again(&self, answer: &Answer) -> bool {
        txid_told(answer) < self.txid
    }

    ghost last_stands = { last_stands };
}

/// The transaction at which an answer says that the node stands: 0 where it says none.
fn txid_told(answer: &Answer) -> u64
    ensures { result ≡ txid_told answer.now }
{
    match answer {
        Answer::At(here) => here.pos.txid,
        _ => 0,
    }
}

/// Asks Where, again after a nap while the node stands below the floor, at most so often. Each ask is a turn.
pub(crate) fn wait<S: Steps<Ask = Ask, Answer = Answer>, C: Clock, P: Pause>(
    steps: &mut S,
    clock: &mut C,
    pause: &mut P,
    floor: u64,
    turns: &mut Turns,
) -> Result<Waited, SessionEnd>
    ensures waits { IfOk result (Waits (asker S.Steps C.Clock steps.old clock.old) floor (S.entries steps.old) (S.entries steps.new)) }
    ensures vain { OnErr result (AskedInVain (below (asker S.Steps C.Clock steps.old clock.old) floor) asks.Where (S.entries steps.old) (S.entries steps.new)) }
    ensures same { AsksOn S.Steps C.Clock steps.old steps.new clock.old clock.new }
    ensures spent { AsksFor result turns.old (length (S.entries steps.old)) turns.new (length (S.entries steps.new)) }
    ensures cause { EndsAsking (S.is_worn steps.new) turns.new result }
{
    let before = turns.left();
    let mut asks = Turns::new(before.min(ASKS_MAX));
    let asked = ask_until(
        steps,
        clock,
        pause,
        Ask::Where,
        &Floor { txid: floor },
        &mut asks,
    );
    *turns = Turns::new(before.saturating_sub(before.min(ASKS_MAX).saturating_sub(asks.left())));
    match asked {
        Ok(_) => Ok(Waited::Reached),
        Err(SessionEnd::Turns) if before >= ASKS_MAX => Ok(Waited::Behind),
        Err(end) => Err(end),
    }
}
