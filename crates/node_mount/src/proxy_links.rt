//! The links of an application's clients are accepted by one job, and their requests passed on by a fixed number of others.
ghost use Rattle.std.specs.Prelude.{◌≡◌, IfOk};
ghost use Rattle.node_mount.specs.Places.{HasSeenNone};
ghost use Rattle.node_mount.specs.Serving.{CountsStarts};

use crate::hall::Links;
use crate::http_links::accepting_job;
use crate::means::{BUDGET, Means};
use crate::mount_fault::MountFault;
use crate::place::Place;
use crate::sessions::LINKS;
use crate::work::{Work, start_work};
use lf_base::{
    Acceptor, Clock, Closing, Dialer, Handles, Link, NoMemory, Pause, Spawner, Text, start,
};
use node_core::{Answer, Ask};
use turn_desk::Machine;
use txid_proxy::{Passage, pass_seat};

/// How many links are served at a time. Each may hold a body and a reply of 64 MiB.
const JOBS: u32 = 64;

// So many clients that stall hold up no other.
const _: () = prove!(JOBS >= 64);

/// An application whose requests are passed on: where the links of its clients come from, what dials it, and where it is.
#[derive(Drop)]
pub struct Proxy<A, T> {
    pub accept: A,
    pub dialer: T,
    pub target: Text,
}

/// Starts the jobs of an application's clients, where there is one: one that accepts their links, and those that pass
/// their requests on.
pub fn start_proxy<
    R: Handles + Copy + Send + 'static,
    K: Machine<Ask = Ask, Answer = Answer> + Send + Drop + 'static,
    L: Link + Send + Drop + 'static,
    A: Acceptor<L = L> + Send + Drop + 'static,
    U: Link + Send + Drop + 'static,
    T: Dialer<L = U> + Send + Drop + 'static,
    S: Spawner,
    C: Clock + Copy + Send + 'static,
    P: Pause + Copy + Send + 'static,
>(
    means: Means<R, C, P>,
    place: &mut Place<K>,
    proxy: Option<Proxy<A, T>>,
    closing: &Closing,
    spawner: &mut S,
) -> Result<(), MountFault>
    requires unused { HasSeenNone place.old.seat }
    ensures unused { HasSeenNone place.new.seat }
    ensures cause { CountsStarts (S.faults spawner.old) (S.faults spawner.new) result }
{
    let Some(proxy) = proxy else {
        return Ok(());
    };
    let Proxy {
        accept,
        dialer,
        target,
    } = proxy;
    let Ok((job, links)) = accepting_job(means.alloc, accept, means.pause, closing) else {
        return Err(MountFault::NoMemory);
    };
    let passing = Passing {
        links,
        dialer,
        target,
    };
    match start(means.rt, spawner, job) {
        Ok(()) => start_passing(means, place, &passing, spawner),
        Err(_) => Err(MountFault::NoThread),
    }
}

/// Starts the jobs that pass requests on, each with a seat and a dialer of its own.
fn start_passing<
    R: Handles + Copy + Send + 'static,
    K: Machine<Ask = Ask, Answer = Answer> + Send + Drop + 'static,
    L: Link + Send + Drop + 'static,
    U: Link + Send + Drop + 'static,
    T: Dialer<L = U> + Send + Drop + 'static,
    S: Spawner,
    C: Clock + Copy + Send + 'static,
    P: Pause + Copy + Send + 'static,
>(
    means: Means<R, C, P>,
    place: &mut Place<K>,
    passing: &Passing<L, T>,
    spawner: &mut S,
) -> Result<(), MountFault>
    requires unused { HasSeenNone place.old.seat }
    ensures unused { HasSeenNone place.new.seat }
    ensures cause { CountsStarts (S.faults spawner.old) (S.faults spawner.new) result }
{
    for _ in 0..JOBS {
        let (Some(place), Ok(work)) = (place.another(means.rt), passing.another()) else {
            return Err(MountFault::NoMemory);
        };
        match start_work(means, place, work, spawner) {
            Ok(()) => {}
            Err(_) => return Err(MountFault::NoThread),
        }
    }
    Ok(())
}

/// The work of a job that passes requests on.
#[derive(Drop)]
struct Passing<L, T> {
    links: Links<L>,
    dialer: T,
    target: Text,
}

impl<L: Drop, T: Dialer + Drop> Passing<L, T> {
    /// The same of another job, at the same links and the same target.
    fn another(&self) -> Result<Passing<L, T>, NoMemory>
        ensures { IfOk result (λ other. other.target ≡ self.now.target) }
    {
        Ok(Passing {
            links: self.links.another()?,
            dialer: self.dialer.another(),
            target: self.target.copy()?,
        })
    }
}

impl<L: Link + Drop, U: Link + Drop, T: Dialer<L = U> + Drop> Work for Passing<L, T> {
    /// Serves one link after another, until no more come.
    fn go<
        R: Handles + Copy,
        K: Machine<Ask = Ask, Answer = Answer> + Drop,
        C: Clock + Copy,
        P: Pause + Copy,
    >(self, means: Means<R, C, P>, place: Place<K>) {
        let mut place = place;
        let Passing {
            links,
            dialer,
            target,
        } = self;
        let mut passage = Passage {
            dialer,
            target,
            clock: means.clock,
            pause: means.pause,
            budget: BUDGET,
        };
        for _ in 0..LINKS {
            let Some(link) = links.take(&means.rt) else {
                break;
            };
            pass_client(means, &mut place, &mut passage, link);
        }
    }
}

/// Passes the one request of a link on, by the seat of the job.
fn pass_client<
    R: Handles + Copy,
    K: Machine<Ask = Ask, Answer = Answer>,
    L: Link + Drop,
    T: Dialer,
    C: Clock + Copy,
    P: Pause + Copy,
>(means: Means<R, C, P>, place: &mut Place<K>, passage: &mut Passage<T, C, P>, link: L) {
    let mut link = link;
    pass_seat(
        means.rt,
        means.alloc,
        &*place.desk,
        &mut place.seat,
        &mut link,
        passage,
    );
}
