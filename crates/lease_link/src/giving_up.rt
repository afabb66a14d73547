//! A lease given up over one that asks steps.

ghost use Rattle.std.specs.Prelude.{◌≡◌, IsErr};
ghost use Rattle.http_exchange.specs.Exchange.{LinksTell};
ghost use Rattle.lease_link.specs.Keeping.{GivesUp, Releases};
ghost use Rattle.lease_link.specs.Rounds.{Borrows, RoundGoesOn, asker_of, dialed_by, round_stand};

use crate::bringing::Bringing;
use crate::keeping::tell;
use crate::round::Round;
use crate::service::Service;
use crate::unlearned::Unlearned;
use lease_core::{Grant, LeaseAsk};
use lf_base::{Clock, Dialer, Handles, NoMemory};
use link_session::Steps;

/// Tells the machine that its lease is lost, and then gives the term back, where it has one. How that
/// ends is of no account.
pub(crate) fn give_up<
    R: Handles,
    Q: Drop,
    A: Drop,
    S: Steps<Ask = Q, Answer = A>,
    B: Bringing<Ask = Q>,
    V: Service,
    T: Dialer,
    C: Clock,
    P,
>(
    rt: &R,
    steps: &mut S,
    round: &mut Round<T, V, C, P>,
    bring: &B,
    own: &Grant,
) -> Result<(), NoMemory>
    ensures given { GivesUp B.Bringing V.Service (asker_of S.Steps C.Clock round.old steps.old) (LinksTell T.L.given T.L.taken) own.now round.old.turns (S.is_worn steps.new)
        (round_stand T.Dialer (S.entries steps.old) round.old) (round_stand T.Dialer (S.entries steps.new) round.new) (IsErr result) }
    ensures same { RoundGoesOn S.Steps C.Clock round.old round.new steps.old steps.new }
{
    let news = bring.lost(round.clock.now_ms());
    match tell(steps, news, &mut round.turns) {
        Ok(()) => {}
        Err(_) => return Ok(()),
    }
    if own.term == 0 {
        return Ok(());
    }
    release(rt, round, own)
}

/// Gives the term back, once.
fn release<R: Handles, V: Service, T: Dialer, C, P>(
    rt: &R,
    round: &mut Round<T, V, C, P>,
    own: &Grant,
) -> Result<(), NoMemory>
    ensures releases { Releases V.Service (LinksTell T.L.given T.L.taken) own.now (dialed_by T.Dialer round.old) (dialed_by T.Dialer round.new)
        round.old.service.now round.new.service.now (IsErr result) }
    ensures borrows { Borrows round.old round.new }
    ensures clock { round.new.clock ≡ round.old.clock }
{
    let asked = LeaseAsk::Release {
        node: own.node,
        term: own.term,
    };
    match round
        .service
        .ask(rt, round.alloc, round.dialer, &asked, &mut round.turns)
    {
        Ok(_) | Err(Unlearned::Turns) => Ok(()),
        Err(Unlearned::NoMemory) => Err(NoMemory),
    }
}
