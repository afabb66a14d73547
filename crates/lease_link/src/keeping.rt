//! A round over one that asks steps.

ghost use Rattle.std.specs.Prelude.{◌≡◌, IfErr, OnErr, OnOk};
ghost use Rattle.http_exchange.specs.Exchange.{LinksTell};
ghost use Rattle.link_session.specs.Stands.{GoesOn};
ghost use Rattle.lease_link.specs.declared.keep_end.KeepEnd.TheVariants as ends;
ghost use Rattle.lease_link.specs.Keeping.{Asks, Concludes, EndsTell, IsRound, end_untold, ended_by};
ghost use Rattle.lease_link.specs.Learning.{round_ask};
ghost use Rattle.lease_link.specs.Rounds.{RoundGoesOn, asker_of, round_stand};

use crate::bringing::Bringing;
use crate::keep_end::KeepEnd;
use crate::learned::Learned;
use crate::learning::round_ask;
use crate::round::Round;
use crate::service::Service;
use crate::unlearned::Unlearned;
use lease_core::Grant;
use lf_base::{Clock, Dialer, Handles, Pause, Text};
use link_session::{Steps, Turns};

/// One round, by one that asks steps.
pub(crate) fn keep<
    R: Handles,
    Q: Drop,
    A: Drop,
    S: Steps<Ask = Q, Answer = A>,
    B: Bringing<Ask = Q>,
    V: Service,
    T: Dialer,
    C: Clock,
    P: Pause,
>(
    rt: &R,
    steps: &mut S,
    round: &mut Round<T, V, C, P>,
    bring: &B,
    own: &Grant,
    candidate: bool,
) -> KeepEnd
    ensures round { IsRound B.Bringing V.Service (asker_of S.Steps C.Clock round.old steps.old) (LinksTell T.L.given T.L.taken)
        (round_ask own.now candidate) own.now round.old.turns (round_stand T.Dialer (S.entries steps.old) round.old)
        (round_stand T.Dialer (S.entries steps.new) round.new) result }
    ensures same { RoundGoesOn S.Steps C.Clock round.old round.new steps.old steps.new }
    ensures worn { result ≡ ends.Worn → S.is_worn steps.new }
{
    let Ok(asked) = round_ask(own, candidate) else {
        return KeepEnd::NoMemory;
    };
    let first = bring.asking(round.clock.now_ms());
    match tell(steps, first, &mut round.turns) {
        Ok(()) => {}
        Err(end) => return end,
    }
    match round
        .service
        .ask(rt, round.alloc, round.dialer, &asked, &mut round.turns)
    {
        Ok(learned) => conclude(steps, round, bring, own, learned),
        Err(why) => end_untold(why),
    }
}

/// How a round ends that learned nothing of the service, since turns or memory ran out.
fn end_untold(why: Unlearned) -> KeepEnd
    ensures { result ≡ end_untold why }
{
    match why {
        Unlearned::Turns => KeepEnd::Turns,
        Unlearned::NoMemory => KeepEnd::NoMemory,
    }
}

/// Tells the machine. It is a turn.
pub(crate) fn tell<Q: Drop, A: Drop, S: Steps<Ask = Q, Answer = A>>(
    steps: &mut S,
    news: Q,
    turns: &mut Turns,
) -> Result<(), KeepEnd>
    ensures asked { OnOk result (Asks (S.number steps.old) news (S.entries steps.old) (S.entries steps.new)) }
    ensures still { OnErr result (S.entries steps.new ≡ S.entries steps.old) }
    ensures same { (S.of steps.new ≡ S.of steps.old) × (S.number steps.new ≡ S.number steps.old) × GoesOn S.Steps steps.old steps.new }
    ensures cause { IfErr result (EndsTell (S.is_worn steps.new) turns.old) }
{
    match turns.take() {
        Ok(()) => {}
        Err(_) => return Err(KeepEnd::Turns),
    }
    match steps.ask(&news) {
        Ok(_) => Ok(()),
        Err(_) => Err(KeepEnd::Worn),
    }
}

/// Tells the machine what was learned, and naps.
fn conclude<
    Q: Drop,
    A: Drop,
    S: Steps<Ask = Q, Answer = A>,
    B: Bringing<Ask = Q>,
    V,
    T,
    C: Clock,
    P: Pause,
>(steps: &mut S, round: &mut Round<T, V, C, P>, bring: &B, own: &Grant, learned: Learned) -> KeepEnd
    ensures concludes { Concludes B.Bringing (asker_of S.Steps C.Clock round.old steps.old) own.now learned (S.entries steps.old) (S.entries steps.new) result }
    ensures same { RoundGoesOn S.Steps C.Clock round.old round.new steps.old steps.new }
    ensures still { (round.new.dialer ≡ round.old.dialer) × (round.new.service ≡ round.old.service) }
    ensures worn { result ≡ ends.Worn → S.is_worn steps.new }
{
    let now = round.clock.now_ms();
    match learned {
        Learned::Granted { term, ttl } => {
            let told = tell(steps, bring.granted(now, term, ttl), &mut round.turns);
            ended(told, term, None, round.pause)
        }
        Learned::Lost => {
            let told = tell(steps, bring.lost(now), &mut round.turns);
            ended(told, 0, None, round.pause)
        }
        Learned::Primary { host, url } => {
            let told = tell(steps, bring.primary(now, host), &mut round.turns);
            ended(told, own.term, Some(url), round.pause)
        }
        Learned::Nobody => {
            round.pause.nap();
            KeepEnd::Nobody
        }
        Learned::Nothing => ended(Ok(()), own.term, None, round.pause),
    }
}

/// Naps, where what was learned was told.
fn ended<P: Pause>(
    told: Result<(), KeepEnd>,
    term: u64,
    url: Option<Text>,
    pause: &mut P,
) -> KeepEnd
    ensures { result ≡ ended_by told term url }
{
    match told {
        Ok(()) => {
            pause.nap();
            KeepEnd::Done { term, url }
        }
        Err(end) => end,
    }
}
