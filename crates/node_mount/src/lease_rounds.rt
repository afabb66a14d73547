//! A node keeps its lease, and its log short: one job, round by round.
ghost use Rattle.std.specs.Prelude.{◌≡◌, ◌↔◌, IsTrue};
ghost use Rattle.node_core.specs.declared.answer.Answer.TheVariants as answers;
ghost use Rattle.node_core.specs.declared.refusal.Refusal.TheVariants as refusals;
ghost use Rattle.txn_log.specs.declared.fault.StoreFault.TheVariants as faults;
ghost use Rattle.turn_desk.specs.Seats.{IsOf};

use crate::board::Board;
use crate::ending::info_of;
use crate::keeper::Keeper;
use crate::lease_news::ToNode;
use crate::means::{BUDGET, Means};
use crate::place::Place;
use crate::posting::{Posting, posted_by};
use crate::sessions::LINKS;
use crate::wish::{has_database, term_after};
use crate::work::Work;
use lease_core::Grant;
use lease_link::{KeepEnd, Round, give_up_lease, keep_lease};
use lf_base::{Clock, Closing, Dialer, Handles, NoMemory, Pause};
use link_session::{AtSeat, Turns};
use node_core::{Answer, Ask, Refusal};
use std::alloc::Global;
use std::sync::Wait;
use turn_desk::{Desk, Machine, Seat};
use txn_log::StoreFault;

/// The rounds of a node.
#[derive(Drop)]
pub struct Rounds<T, C> {
    /// None where the lease is static.
    pub keeper: Option<Keeper<T, C>>,
    /// Where the following job finds the primary.
    pub board: Board,
    /// How many files of the log are kept.
    pub retention: u64,
    /// How often a round naps.
    pub naps: u64,
    /// It is closed once the rounds have ended, and the lease is given up.
    pub ended: Closing,
}

/// The work of the job that makes these rounds.
pub fn rounds_work<T: Drop, C: Drop>(
    rounds: Rounds<T, C>,
    closing: &Closing,
) -> Result<Going<T, C>, NoMemory> {
    let closing = closing.another()?;
    Ok(Going { rounds, closing })
}

/// The work of the job.
#[derive(Drop)]
pub struct Going<T, Q> {
    rounds: Rounds<T, Q>,
    closing: Closing,
}

impl<T: Dialer + Drop, Q: Clock + Copy> Work for Going<T, Q> {
    /// Makes one round after another until the word is closed. Then the lease is given up.
    fn go<
        R: Handles + Copy,
        K: Machine<Ask = Ask, Answer = Answer> + Drop,
        C: Clock + Copy,
        P: Pause + Copy,
    >(self, means: Means<R, C, P>, place: Place<K>) {
        let Going { rounds, closing } = self;
        let (mut means, mut place, mut rounds) = (means, place, rounds);
        for _ in 0..LINKS {
            if closing.is_closed() {
                break;
            }
            let naps = round(&mut means, &mut place, &mut rounds);
            nap(&mut means.pause, naps, &closing);
        }
        if let Some(keeper) = &mut rounds.keeper {
            give_up(&mut means, &mut place, keeper);
        }
        rounds.ended.close();
    }
}

/// One round: the lease is kept, and the log pruned. A node whose store is broken gives its lease up,
/// and asks for none from then on. Answers how many naps are left of the round's.
fn round<
    R: Handles + Copy,
    K: Machine<Ask = Ask, Answer = Answer>,
    T: Dialer,
    Q: Clock,
    C: Clock,
    P: Pause,
>(means: &mut Means<R, C, P>, place: &mut Place<K>, rounds: &mut Rounds<T, Q>) -> u64 {
    let Rounds {
        keeper,
        board,
        retention,
        naps,
        ended: _,
    } = rounds;
    let Some(keeper) = keeper else {
        prune(means, place, *retention);
        return *naps;
    };
    let end = keep(means, place, keeper, board);
    let broken = prune(means, place, *retention);
    if broken && keeper.wish.candidate {
        give_up(means, place, keeper);
        keeper.own.term = 0;
        keeper.wish.candidate = false;
    }
    match end {
        // It had one nap.
        KeepEnd::Done { .. } | KeepEnd::Nobody => naps.saturating_sub(1),
        _ => *naps,
    }
}

/// One round with who grants the lease.
fn keep<
    R: Handles + Copy,
    K: Machine<Ask = Ask, Answer = Answer>,
    T: Dialer,
    Q: Clock,
    C: Clock,
    P: Pause,
>(
    means: &mut Means<R, C, P>,
    place: &mut Place<K>,
    keeper: &mut Keeper<T, Q>,
    board: &Board,
) -> KeepEnd {
    let has_database = has_database_now(means, place, keeper);
    let asks = keeper.wish.asks_to_be(has_database);
    let end = keep_by_seat(means, &*place.desk, &mut place.seat, keeper, asks);
    post(&means.rt, means.alloc, board, &keeper.own, &end);
    keeper.wish = keeper.wish.after(asks, &end);
    keeper.own.term = term_after(keeper.own.term, &end);
    if keeper.wish.begins_to_wait(has_database) {
        keeper.notes.waits_for_lease(&means.rt);
    }
    end
}

/// Whether a node that may ask to be primary has a database. One that may not, or has a term, isn't asked.
fn has_database_now<R: Handles + Copy, K: Machine<Ask = Ask, Answer = Answer>, T, Q, C: Clock, P>(
    means: &mut Means<R, C, P>,
    place: &mut Place<K>,
    keeper: &Keeper<T, Q>,
) -> bool {
    if !keeper.wish.candidate || keeper.own.term != 0 {
        return false;
    }
    match info_of(means, place) {
        Some(info) => has_database(&info),
        None => false,
    }
}

/// The same by a seat of a desk.
fn keep_by_seat<
    R: Handles + Copy,
    K: Machine<Ask = Ask, Answer = Answer>,
    T: Dialer,
    Q: Clock,
    C: Clock,
    P: Pause,
>(
    means: &mut Means<R, C, P>,
    desk: &Desk<K>,
    seat: &mut Seat<K>,
    keeper: &mut Keeper<T, Q>,
    asks: bool,
) -> KeepEnd
    requires { IsOf seat.old desk.now }
    ensures { IsOf seat.new desk.now }
{
    let rt = means.rt;
    let mut at = AtSeat {
        rt: &rt,
        desk,
        seat,
    };
    let mut round = Round {
        alloc: means.alloc,
        dialer: &mut keeper.dialer,
        service: &mut keeper.source,
        clock: &mut means.clock,
        pause: &mut means.pause,
        turns: Turns::new(BUDGET),
    };
    keep_lease(&mut at, &mut round, &ToNode, &keeper.own, asks)
}

/// Writes on the board what a round tells. Where memory runs out it stays.
fn post<R: Wait>(rt: &R, alloc: Global, board: &Board, own: &Grant, end: &KeepEnd) {
    match posted_by(alloc, own, end) {
        Ok(Posting::Nobody) => board.set(rt, None),
        Ok(Posting::At(address)) => board.set(rt, Some(address)),
        Ok(Posting::AsBefore) | Err(_) => {}
    }
}

/// Gives the lease up.
fn give_up<
    R: Handles + Copy,
    K: Machine<Ask = Ask, Answer = Answer>,
    T: Dialer,
    Q: Clock,
    C: Clock,
    P: Pause,
>(means: &mut Means<R, C, P>, place: &mut Place<K>, keeper: &mut Keeper<T, Q>) {
    give_up_by_seat(means, &*place.desk, &mut place.seat, keeper);
}

/// The same by a seat of a desk.
fn give_up_by_seat<
    R: Handles + Copy,
    K: Machine<Ask = Ask, Answer = Answer>,
    T: Dialer,
    Q: Clock,
    C: Clock,
    P: Pause,
>(means: &mut Means<R, C, P>, desk: &Desk<K>, seat: &mut Seat<K>, keeper: &mut Keeper<T, Q>)
    requires { IsOf seat.old desk.now }
    ensures { IsOf seat.new desk.now }
{
    let rt = means.rt;
    let mut at = AtSeat {
        rt: &rt,
        desk,
        seat,
    };
    let mut round = Round {
        alloc: means.alloc,
        dialer: &mut keeper.dialer,
        service: &mut keeper.source,
        clock: &mut means.clock,
        pause: &mut means.pause,
        turns: Turns::new(BUDGET),
    };
    let _ = give_up_lease(&mut at, &mut round, &ToNode, &keeper.own);
}

/// Prunes the log to its newest files. Answers whether the store is broken.
pub fn prune<R: Handles + Copy, K: Machine<Ask = Ask, Answer = Answer>, C: Clock, P: Pause>(
    means: &mut Means<R, C, P>,
    place: &mut Place<K>,
    keep: u64,
) -> bool {
    match place
        .desk
        .step(means.rt, &mut place.seat, &Ask::Prune { keep })
    {
        Ok(answer) => is_broken(&answer),
        Err(_) => false,
    }
}

/// Whether a node answered that its store is broken.
fn is_broken(answer: &Answer) -> bool
    ensures { IsTrue result ↔ (answer.now ≡ answers.Refused (refusals.Store faults.Broken)) }
{
    matches!(answer, Answer::Refused(Refusal::Store(StoreFault::Broken)))
}

/// How many naps are taken in one.
const AT_ONCE: u64 = 20;

/// Naps so often, until the word is closed, at which it looks once in so many naps.
pub fn nap<P: Pause>(pause: &mut P, naps: u64, closing: &Closing) {
    for _ in 0..naps / AT_ONCE {
        if closing.is_closed() {
            return;
        }
        pause.naps(AT_ONCE);
    }
    if !closing.is_closed() {
        pause.naps(naps % AT_ONCE);
    }
}
