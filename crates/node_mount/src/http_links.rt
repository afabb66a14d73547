//! HTTP links are accepted by one job, and served by a fixed number of others.
ghost use Rattle.node_mount.specs.Places.{HasSeenNone};
ghost use Rattle.node_mount.specs.Serving.{CountsStarts};
ghost use Rattle.turn_desk.specs.Seats.{IsOf};

use crate::follower_notes::FollowerNotes;
use crate::hall::{Links, two_holds};
use crate::hearing::{Hear, Heard, HeardSeat, serve_heard};
use crate::means::Means;
use crate::mount_fault::MountFault;
use crate::node_gauge::{Meters, NodeGauge};
use crate::notes::Notes;
use crate::patience::watcher_naps;
use crate::place::Place;
use crate::sessions::LINKS;
use crate::work::{Work, start_work};
use lf_base::{
    Acceptor, Clock, Closing, Handles, Job, Link, Name, NoMemory, Pause, Spawner, start,
};
use node_core::{Answer, Ask};
use node_figures::{Gauge, Tally};
use node_objects::Line;
use std::alloc::Global;
use std::cell::Cell;
use stream_primary::About;
use turn_desk::{Desk, Machine, Rest, Seat};

/// How many HTTP links are served at a time, each stream to a follower among them.
const JOBS: u32 = 256;

/// For how many milliseconds a stream that is level rests at most. A commit ends its rest. Then its follower is looked for.
const LEVEL_MS: u64 = 5000;

// So many followers and clients that stall hold up no other.
const _: () = prove!(JOBS >= 256);

/// Where HTTP links come from, and what they are served by.
#[derive(Drop)]
pub struct Door<A> {
    pub accept: A,
    pub calling: Calling,
}

/// What is asked on HTTP links: a node of this database, with its figures. The jobs note there what becomes of
/// followers.
#[derive(Drop)]
pub struct Calling {
    pub name: Name,
    pub notes: Notes,
    pub meters: Meters,
}

impl Calling {
    pub fn of(name: &Name, notes: &Notes, meters: &Meters) -> Result<Calling, NoMemory> {
        Ok(Calling {
            name: name.copy()?,
            notes: notes.another()?,
            meters: meters.another()?,
        })
    }
}

/// Starts the jobs of HTTP links: one that accepts them, and those that serve them.
pub fn start_http<
    R: Handles + Copy + Send + 'static,
    K: Machine<Ask = Ask, Answer = Answer> + Send + Drop + 'static,
    L: Link + Send + Drop + 'static,
    A: Acceptor<L = L> + Send + Drop + 'static,
    S: Spawner,
    C: Clock + Copy + Send + 'static,
    P: Pause + Copy + Send + 'static,
>(
    means: Means<R, C, P>,
    place: &mut Place<K>,
    door: Door<A>,
    closing: &Closing,
    spawner: &mut S,
) -> Result<(), MountFault>
    requires unused { HasSeenNone place.old.seat }
    ensures unused { HasSeenNone place.new.seat }
    ensures cause { CountsStarts (S.faults spawner.old) (S.faults spawner.new) result }
{
    let Door { accept, calling } = door;
    let Ok((job, links)) = accepting_job(means.alloc, accept, means.pause, closing) else {
        return Err(MountFault::NoMemory);
    };
    match start(means.rt, spawner, job) {
        Ok(()) => start_serving(means, place, &calling, &links, spawner),
        Err(_) => Err(MountFault::NoThread),
    }
}

/// The job that accepts HTTP links, and the links that it accepts.
pub(crate) fn accepting_job<L: Drop, A: Drop, P: Copy>(
    alloc: Global,
    accept: A,
    pause: P,
    closing: &Closing,
) -> Result<(Accepting<L, A, P>, Links<L>), NoMemory> {
    let closing = closing.another()?;
    let (links, theirs) = two_holds(alloc)?;
    let job = Accepting {
        accept,
        pause,
        links: theirs,
        closing,
    };
    Ok((job, links))
}

/// A job that accepts links.
#[derive(Drop)]
pub(crate) struct Accepting<L, A, P> {
    accept: A,
    pause: P,
    links: Links<L>,
    closing: Closing,
}

impl<
    R: Handles + Copy,
    L: Link + Send + Drop + 'static,
    A: Acceptor<L = L> + Drop,
    P: Pause + Copy,
> Job<R> for Accepting<L, A, P> {
    /// Accepts one link after another, until no more come or the word is closed. After a link that could
    /// not be accepted it naps, and goes on. A link for which there is no memory is let go.
    fn go(self, rt: R) {
        let mut job = self;
        for _ in 0..LINKS {
            let next = job.accept.accept(&rt);
            if job.closing.is_closed() {
                break;
            }
            match next {
                Ok(Some(link)) => {
                    let _ = job.links.put(&rt, link);
                }
                Ok(None) => break,
                Err(_) => job.pause.nap(),
            }
        }
        job.links.close(&rt);
    }
}

/// Starts the jobs that serve HTTP links, each with a seat of its own.
fn start_serving<
    R: Handles + Copy + Send + 'static,
    K: Machine<Ask = Ask, Answer = Answer> + Send + Drop + 'static,
    L: Link + Send + Drop + 'static,
    S: Spawner,
    C: Clock + Copy + Send + 'static,
    P: Pause + Copy + Send + 'static,
>(
    means: Means<R, C, P>,
    place: &mut Place<K>,
    calling: &Calling,
    links: &Links<L>,
    spawner: &mut S,
) -> Result<(), MountFault>
    requires unused { HasSeenNone place.old.seat }
    ensures unused { HasSeenNone place.new.seat }
    ensures cause { CountsStarts (S.faults spawner.old) (S.faults spawner.new) result }
{
    for _ in 0..JOBS {
        let (Some(place), Ok(work)) = (place.another(means.rt), callers_of(calling, links)) else {
            return Err(MountFault::NoMemory);
        };
        match start_work(means, place, work, spawner) {
            Ok(()) => {}
            Err(_) => return Err(MountFault::NoThread),
        }
    }
    Ok(())
}

/// The work of one more job that serves these links.
fn callers_of<L: Drop>(calling: &Calling, links: &Links<L>) -> Result<Callers<L>, NoMemory> {
    let calling = Calling::of(&calling.name, &calling.notes, &calling.meters)?;
    let links = links.another()?;
    Ok(Callers { links, calling })
}

/// The work of a job that serves HTTP links.
#[derive(Drop)]
struct Callers<L> {
    links: Links<L>,
    calling: Calling,
}

impl<L: Link + Drop> Work for Callers<L> {
    /// Serves one link after another, until no more come.
    fn go<
        R: Handles + Copy,
        K: Machine<Ask = Ask, Answer = Answer> + Drop,
        C: Clock + Copy,
        P: Pause + Copy,
    >(self, means: Means<R, C, P>, place: Place<K>) {
        let (mut means, mut place) = (means, place);
        let Callers { links, calling } = self;
        let Calling {
            name,
            notes,
            meters,
        } = calling;
        let gauge = NodeGauge {
            rt: means.rt,
            clock: means.clock,
            meters,
        };
        let about = About { name, gauge };
        for _ in 0..LINKS {
            let Some(link) = links.take(&means.rt) else {
                break;
            };
            serve_caller(&mut means, &mut place, &about, &notes, link);
        }
    }
}

/// Serves the one request of a link, by the seat of the job.
fn serve_caller<
    R: Handles + Copy,
    K: Machine<Ask = Ask, Answer = Answer>,
    G: Gauge,
    L: Link + Drop,
    C: Clock,
    P: Pause + Copy,
>(means: &mut Means<R, C, P>, place: &mut Place<K>, about: &About<G>, notes: &Notes, link: L) {
    let who = peer_line(means.alloc, &link);
    let watches = Cell::new(false);
    let mut heard = Heard {
        link,
        pause: CallPause {
            rest: Rest::new(means.rt, &*place.desk, LEVEL_MS),
            nap: means.pause,
            watches: &watches,
            tally: &notes.tally,
        },
        hears: FollowerNotes::new(means.rt, means.alloc, notes, who, &watches),
    };
    serve_lent(means, &*place.desk, &mut place.seat, &mut heard, about);
    heard.hears.end();
}

/// Serves the one request of a link, by the seat.
fn serve_lent<
    R: Handles + Copy,
    K: Machine<Ask = Ask, Answer = Answer>,
    G: Gauge,
    L: Link,
    C: Clock,
    P: Pause,
    W: Pause,
    H: Hear,
>(
    means: &mut Means<R, C, P>,
    desk: &Desk<K>,
    seat: &mut Seat<K>,
    heard: &mut Heard<L, W, H>,
    about: &About<G>,
)
    requires { IsOf seat.old desk.now }
    ensures { IsOf seat.new desk.now }
{
    let rt = means.rt;
    let mut session = means.session(&mut heard.link, &mut heard.pause);
    let mut at = HeardSeat {
        rt: &rt,
        desk,
        seat,
        hears: &mut heard.hears,
    };
    serve_heard(&mut session, &mut at, about);
}

/// The pause of a session: a commit ends the rest of a follower, and a watcher of events naps by time, so that
/// no commit wakes it, and the longer the more of them there are.
#[derive(Drop)]
struct CallPause<'c, W, P> {
    rest: W,
    nap: P,
    watches: &'c Cell<bool>,
    tally: &'c Tally,
}

impl<W: Pause, P: Pause> Pause for CallPause<'_, W, P> {
    fn nap(&mut self) {
        self.naps(1);
    }

    fn naps(&mut self, count: u64) {
        if self.watches.get() {
            let naps = watcher_naps(self.tally.watchers());
            self.nap.naps(count.saturating_mul(naps));
        } else {
            self.rest.naps(count);
        }
    }
}

/// A blank and the address at the other end of a link, or nothing where that isn't known.
fn peer_line<L: Link>(alloc: Global, link: &L) -> Line {
    let Some(address) = link.peer() else {
        return Line::new(alloc);
    };
    match format!(in alloc; " {address}") {
        Ok(text) => Line::of(alloc, text.as_bytes()).unwrap_or(Line::new(alloc)),
        Err(_) => Line::new(alloc),
    }
}
