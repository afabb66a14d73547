//! A replica follows its primary: one job dials it, and another follows the stream on each link.
ghost use Rattle.lf_base.specs.Faults.{CountsFaults};
ghost use Rattle.node_mount.specs.Places.{HasSeenNone};
ghost use Rattle.node_mount.specs.Serving.{CountsStarts};
ghost use Rattle.turn_desk.specs.Seats.{IsOf};

use crate::frame_notes::{FrameNotes, Replica};
use crate::hall::{Links, two_holds};
use crate::hearing::{Hear, Heard, HeardSeat, follow_heard};
use crate::means::Means;
use crate::mount_fault::MountFault;
use crate::notes::Notes;
use crate::place::Place;
use crate::sessions::LINKS;
use crate::to_primary::ToPrimary;
use crate::work::{Work, start_work};
use lf_base::{
    Clock, Closing, Dialer, Failed, Handles, Job, Link, Name, NoMemory, Pause, Spawner, Text, start,
};
use node_core::{Answer, Ask};
use replica_apply::{Doubt, FollowEnd};
use std::alloc::Global;
use turn_desk::{Desk, Machine, Rest, Seat};

/// For how many milliseconds a frame that a lock holds back rests at most. The end of the last such lock ends its rest.
const HELD_MS: u64 = 50;

/// A primary that is followed: of which database, and what dials it.
#[derive(Drop)]
pub struct Primary<T> {
    pub name: Name,
    pub dialer: ToPrimary<T>,
    /// Where its jobs note what comes of its streams.
    pub notes: Notes,
}

/// Starts the two jobs that follow a primary, the one that follows at a seat of its own.
pub fn start_following<
    R: Handles + Copy + Send + 'static,
    K: Machine<Ask = Ask, Answer = Answer> + Send + Drop + 'static,
    L: Link + Send + Drop + 'static,
    T: Dialer<L = L> + Send + Drop + 'static,
    S: Spawner,
    C: Clock + Copy + Send + 'static,
    P: Pause + Copy + Send + 'static,
>(
    means: Means<R, C, P>,
    place: &mut Place<K>,
    primary: Primary<T>,
    closing: &Closing,
    spawner: &mut S,
) -> Result<(), MountFault>
    requires unused { HasSeenNone place.old.seat }
    ensures unused { HasSeenNone place.new.seat }
    ensures cause { CountsStarts (S.faults spawner.old) (S.faults spawner.new) result }
{
    let Some(place) = place.another(means.rt) else {
        return Err(MountFault::NoMemory);
    };
    let Ok((dialing, streams)) = jobs_of(means.alloc, primary, means.pause, closing) else {
        return Err(MountFault::NoMemory);
    };
    match start_both(means, place, dialing, streams, spawner) {
        Ok(()) => Ok(()),
        Err(_) => Err(MountFault::NoThread),
    }
}

/// The job that dials a primary, and the work of the one that follows the streams.
fn jobs_of<L: Drop, T: Drop, P: Copy>(
    alloc: Global,
    primary: Primary<T>,
    pause: P,
    closing: &Closing,
) -> Result<(Dialing<L, T, P>, Streams<L>), NoMemory> {
    let closing = closing.another()?;
    let (links, theirs) = two_holds(alloc)?;
    let Primary {
        name,
        dialer,
        notes,
    } = primary;
    let nowhere = Text::of(alloc, "")?;
    let dialing = Dialing {
        dialer,
        nowhere,
        pause,
        links: theirs,
        notes: notes.another()?,
        closing,
    };
    Ok((dialing, Streams { links, name, notes }))
}

/// Starts one job, and then another at this seat.
fn start_both<
    R: Handles + Copy + Send + 'static,
    K: Machine<Ask = Ask, Answer = Answer> + Send + Drop + 'static,
    J: Job<R> + Send + Drop + 'static,
    W: Work + Send + Drop + 'static,
    S: Spawner,
    C: Clock + Copy + Send + 'static,
    P: Pause + Copy + Send + 'static,
>(means: Means<R, C, P>, place: Place<K>, job: J, work: W, spawner: &mut S) -> Result<(), Failed>
    requires unused { HasSeenNone place.seat }
    ensures cause { CountsFaults (S.faults spawner.old) (S.faults spawner.new) result }
{
    start(means.rt, spawner, job)?;
    start_work(means, place, work, spawner)
}

/// A job that dials a primary.
#[derive(Drop)]
struct Dialing<L, T, P> {
    dialer: ToPrimary<T>,
    /// The dialer finds the address by itself.
    nowhere: Text,
    pause: P,
    links: Links<L>,
    notes: Notes,
    closing: Closing,
}

impl<
    R: Handles + Copy,
    L: Link + Send + Drop + 'static,
    T: Dialer<L = L> + Drop,
    P: Pause + Copy,
> Job<R> for Dialing<L, T, P> {
    /// Dials one time after another, with a nap between them, until the word is closed or it was dialed
    /// so often. Each link is lent out, and hung up when it is back. A dial that fails is only another
    /// turn.
    fn go(self, rt: R) {
        let mut job = self;
        for _ in 0..LINKS {
            if job.closing.is_closed() {
                break;
            }
            let address = job.dialer.address(&rt);
            let dialed = job.dialer.dial(&rt, &job.nowhere);
            job.notes.dialed(&rt, &address, dialed.is_ok());
            if let Ok(link) = dialed {
                if job.links.put(&rt, link).is_ok() {
                    match job.links.take_back(&rt) {
                        Some(link) => job.dialer.hang_up(link),
                        None => break,
                    }
                }
            }
            job.pause.nap();
        }
        job.links.close(&rt);
    }
}

/// The work of a job that follows the stream on each link that is lent to it.
#[derive(Drop)]
struct Streams<L> {
    links: Links<L>,
    name: Name,
    notes: Notes,
}

impl<L: Link + Drop> Work for Streams<L> {
    /// Follows one stream after another, until no more links come.
    fn go<
        R: Handles + Copy,
        K: Machine<Ask = Ask, Answer = Answer> + Drop,
        C: Clock + Copy,
        P: Pause + Copy,
    >(self, means: Means<R, C, P>, place: Place<K>) {
        let (mut means, mut place) = (means, place);
        let mut doubt = Doubt::Nothing;
        for _ in 0..LINKS {
            match follow_next(&mut means, &mut place, &self, doubt) {
                Some(next) => doubt = next,
                None => break,
            }
        }
        self.links.close(&means.rt);
    }
}

/// Follows the stream on the next link to its end, and gives the link back. Answers what speaks against
/// the node's log then, if a link came.
fn follow_next<
    R: Handles + Copy,
    K: Machine<Ask = Ask, Answer = Answer>,
    L: Link + Drop,
    C: Clock,
    P: Pause,
>(
    means: &mut Means<R, C, P>,
    place: &mut Place<K>,
    streams: &Streams<L>,
    doubt: Doubt,
) -> Option<Doubt> {
    let Some(link) = streams.links.take(&means.rt) else {
        return None;
    };
    let mut heard = Heard {
        link,
        pause: Rest::new(means.rt, &*place.desk, HELD_MS),
        hears: FrameNotes {
            rt: means.rt,
            alloc: means.alloc,
            notes: &streams.notes,
            replica: Replica::new(),
        },
    };
    let end = follow_lent(
        means,
        &*place.desk,
        &mut place.seat,
        &mut heard,
        &streams.name,
        doubt.is_unknown(),
    );
    streams.notes.ended(&means.rt, end);
    streams.links.give_back(&means.rt, heard.link);
    Some(doubt.after(end))
}

/// Follows the stream on a link to its end, by the seat.
fn follow_lent<
    R: Handles + Copy,
    K: Machine<Ask = Ask, Answer = Answer>,
    L: Link,
    C: Clock,
    P: Pause,
    W: Pause,
    H: Hear,
>(
    means: &mut Means<R, C, P>,
    desk: &Desk<K>,
    seat: &mut Seat<K>,
    heard: &mut Heard<L, W, H>,
    name: &Name,
    unknown: bool,
) -> FollowEnd
    requires { IsOf seat.old desk.now }
    ensures { IsOf seat.new desk.now }
{
    let rt = means.rt;
    let mut session = means.session(&mut heard.link, &mut heard.pause);
    let mut at = HeardSeat {
        rt: &rt,
        desk,
        seat,
        hears: &mut heard.hears,
    };
    follow_heard(&mut session, &mut at, name, unknown)
}
