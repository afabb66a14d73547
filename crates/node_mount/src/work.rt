//! What a job does at a seat of its own.
ghost use Rattle.std.specs.Arc.{arc_value};
ghost use Rattle.lf_base.specs.Faults.{CountsFaults};
ghost use Rattle.node_mount.specs.Places.{HasSeenNone};
ghost use Rattle.node_mount.specs.Serving.{CountsStarts};
ghost use Rattle.turn_desk.specs.Seats.{IsOf};

use crate::means::Means;
use crate::mount_fault::MountFault;
use crate::place::Place;
use lf_base::{Clock, Failed, Handles, NoMemory, Pause, Spawner, start_call};
use node_core::{Answer, Ask};
use turn_desk::Machine;

/// The work of a job.
pub trait Work {
    /// Does it, to the end. Nobody had asked the node anything when the seat was made.
    fn go<
        R: Handles + Copy,
        K: Machine<Ask = Ask, Answer = Answer> + Drop,
        C: Clock + Copy,
        P: Pause + Copy,
    >(self, means: Means<R, C, P>, place: Place<K>)
        requires unused { HasSeenNone place.seat };
}

/// Starts a job at a seat by which nothing was asked.
pub fn start_work<
    R: Handles + Copy + Send + 'static,
    K: Machine<Ask = Ask, Answer = Answer> + Send + Drop + 'static,
    W: Work + Send + Drop + 'static,
    S: Spawner,
    C: Clock + Copy + Send + 'static,
    P: Pause + Copy + Send + 'static,
>(means: Means<R, C, P>, place: Place<K>, work: W, spawner: &mut S) -> Result<(), Failed>
    requires unused { HasSeenNone place.seat }
    ensures cause { CountsFaults (S.faults spawner.old) (S.faults spawner.new) result }
{
    let Place { desk, seat } = place;
    start_call(
        means.rt,
        spawner,
        move ||
            requires { IsOf seat (arc_value desk) × HasSeenNone seat }
        {
            work.go(means, Place { desk, seat });
        },
    )
}

/// Starts a job at a seat of its own, where memory sufficed for its work.
pub fn start_job<
    R: Handles + Copy + Send + 'static,
    K: Machine<Ask = Ask, Answer = Answer> + Send + Drop + 'static,
    W: Work + Send + Drop + 'static,
    S: Spawner,
    C: Clock + Copy + Send + 'static,
    P: Pause + Copy + Send + 'static,
>(
    means: Means<R, C, P>,
    place: &mut Place<K>,
    work: Result<W, NoMemory>,
    spawner: &mut S,
) -> Result<(), MountFault>
    requires unused { HasSeenNone place.old.seat }
    ensures unused { HasSeenNone place.new.seat }
    ensures cause { CountsStarts (S.faults spawner.old) (S.faults spawner.new) result }
{
    let (Some(place), Ok(work)) = (place.another(means.rt), work) else {
        return Err(MountFault::NoMemory);
    };
    match start_work(means, place, work, spawner) {
        Ok(()) => Ok(()),
        Err(_) => Err(MountFault::NoThread),
    }
}
