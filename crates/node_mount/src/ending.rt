//! How a node ends once no more file links come.
ghost use Rattle.std.specs.Prelude.{◌≡◌, IfSome, IsTrue, OnErr, OnOk};
ghost use Rattle.std.specs.Arc.{arc_value};
ghost use Rattle.link_session.specs.Seats.{FoundWorn};
ghost use Rattle.node_mount.specs.Ending.{BreaksWhere, Broke, LeadsNoMore, Said, WasToldLost};
ghost use Rattle.turn_desk.specs.Seats.{opened_on};

use crate::means::Means;
use crate::place::Place;
use lf_base::{Clock, Closing, Handles, Pause, Spawner};
use node_core::{Answer, Ask, LeaseNews, NodeInfo};
use turn_desk::{Machine, Worn};

/// How serving ends, where nothing of the links failed.
#[derive(Clone, Copy, Debug, PartialEq, Eq)]
pub enum End {
    /// No more links come.
    Closed,
    /// The store broke.
    Broken,
}

/// For how many naps a node whose store broke waits until its lease is given back.
const PATIENCE: u64 = 400;

/// For how many it waits before it ends, so that its sessions write their last replies.
const LAST_NAPS: u64 = 2;

/// Ends a node to which no more file links come. A node whose store broke waits until its rounds have ended, and gives up what
/// else it does; another one is told that it leads no more, so that streams from it end, and waits for all its jobs.
pub fn end_serving<
    R: Handles + Copy,
    K: Machine<Ask = Ask, Answer = Answer>,
    S: Spawner,
    C: Clock,
    P: Pause,
>(means: &mut Means<R, C, P>, place: &mut Place<K>, rounds: &Closing, spawner: &mut S) -> End
    ensures broken { BreaksWhere K.steps (opened_on (arc_value place.old.desk)) result }
    ensures told { LeadsNoMore K.steps (opened_on (arc_value place.old.desk)) place.new.seat result }
    ensures cause { S.faults spawner.new ≡ S.faults spawner.old }
{
    if is_broken(means, place) {
        wait_for(&mut means.pause, rounds);
        means.pause.naps(LAST_NAPS);
        return End::Broken;
    }
    let _ = tell_lost(means, place);
    spawner.finish(&means.rt);
    End::Closed
}

/// Tells the node that its lease is lost. A static primary is none from then on either.
fn tell_lost<R: Handles + Copy, K: Machine<Ask = Ask, Answer = Answer>, C: Clock, P>(
    means: &mut Means<R, C, P>,
    place: &mut Place<K>,
) -> Result<Answer, Worn>
    ensures told { OnOk result (WasToldLost K.steps (opened_on (arc_value place.old.desk))) }
    ensures worn { OnErr result (FoundWorn place.new.seat) }
    ensures desk { arc_value place.new.desk ≡ arc_value place.old.desk }
{
    let now = means.clock.now_ms();
    let lost = Ask::Lease {
        now,
        news: LeaseNews::Lost,
    };
    place.desk.step(means.rt, &mut place.seat, &lost)
}

/// Whether the node says that its store broke.
fn is_broken<R: Handles + Copy, K: Machine<Ask = Ask, Answer = Answer>, C: Clock, P>(
    means: &mut Means<R, C, P>,
    place: &mut Place<K>,
) -> bool
    ensures broke { IsTrue result → Broke K.steps (opened_on (arc_value place.old.desk)) }
    ensures desk { arc_value place.new.desk ≡ arc_value place.old.desk }
{
    match info_of(means, place) {
        Some(info) => info.broken,
        None => false,
    }
}

/// What the node says of itself.
pub fn info_of<R: Handles + Copy, K: Machine<Ask = Ask, Answer = Answer>, C: Clock, P>(
    means: &mut Means<R, C, P>,
    place: &mut Place<K>,
) -> Option<NodeInfo>
    ensures said { IfSome result (Said K.steps (opened_on (arc_value place.old.desk))) }
    ensures desk { arc_value place.new.desk ≡ arc_value place.old.desk }
{
    let now = means.clock.now_ms();
    match place
        .desk
        .step(means.rt, &mut place.seat, &Ask::Info { now })
    {
        Ok(Answer::Info(info)) => Some(info),
        _ => None,
    }
}

/// Naps until the word is closed, but not for ever.
fn wait_for<P: Pause>(pause: &mut P, word: &Closing) {
    for _ in 0..PATIENCE {
        if word.is_closed() {
            break;
        }
        pause.nap();
    }
}
