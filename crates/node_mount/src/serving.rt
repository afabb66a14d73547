//! A node's links are served.
ghost use Rattle.std.specs.Arc.{arc_value};
ghost use Rattle.std.specs.Prelude.{◌≡◌, true, IfOk, OnOk};
ghost use Rattle.node_mount.specs.Doors.{PassesOn};
ghost use Rattle.node_mount.specs.Duties.{AreDutiesBy};
ghost use Rattle.node_mount.specs.Ending.{BreaksWhere};
ghost use Rattle.node_mount.specs.MountKeeping.{Mounts};
ghost use Rattle.node_mount.specs.Places.{HasSeenNone, IsUnused};
ghost use Rattle.node_mount.specs.Serving.{CountsServing, CountsStarts, GivesLimit};
ghost use Rattle.turn_desk.specs.Seats.{opened_on};

use crate::configuration::Configuration;
use crate::doors::Calls;
use crate::duties::{Duties, rounds_word};
use crate::ending::{End, end_serving};
use crate::file_links::serve_file_links;
use crate::following::start_following;
use crate::http_links::{Calling, Door, start_http};
use crate::lease_rounds::rounds_work;
use crate::means::Means;
use crate::mount_fault::MountFault;
use crate::place::Place;
use crate::proxy_links::start_proxy;
use crate::tasks::Tasks;
use crate::watching::{Watching, watching_work};
use crate::work::start_job;
use lf_base::{Acceptor, Clock, Closing, Dialer, Handles, Link, Pause, Spawner};
use node_core::{Answer, Ask};
use node_objects::{Mounter, Tell};
use turn_desk::Machine;

/// By what a node is served beside the links to its files: its configuration, where its other links come from, and
/// its tasks.
#[derive(Drop)]
pub struct Serving<'a, B, T, E, N, C> {
    pub read: &'a Configuration,
    pub calls: Calls<B, T>,
    pub tasks: Tasks<T, E, N, C>,
}

/// Starts the jobs of a node that nobody has asked anything, with the duties of its settings, and serves
/// file links until no more come. Then the jobs are told to end: after `Closed` all have ended, and after
/// `Broken`, as the node says of its store, its rounds, unless they took too long.
pub fn serve_links<
    R: Handles + Copy + Send + 'static,
    K: Machine<Ask = Ask, Answer = Answer> + Send + Drop + 'static,
    A: Acceptor,
    B: Acceptor + Send + Drop + 'static,
    L: Link + Send + Drop + 'static,
    T: Dialer<L = L> + Send + Drop + 'static,
    E: Tell + Send + Drop + 'static,
    N: Mounter + Send + Drop + 'static,
    S: Spawner,
    C: Clock + Copy + Send + 'static,
    P: Pause + Copy + Send + 'static,
>(
    means: Means<R, C, P>,
    place: Place<K>,
    files: &mut A,
    serving: Serving<'_, B, T, E, N, C>,
    spawner: &mut S,
) -> Result<End, MountFault>
    requires unused { IsUnused place.seat (arc_value place.desk) }
    requires duties { AreDutiesBy serving.read.now.settings serving.tasks.duties }
    requires passes { PassesOn serving.read.now.settings.proxy serving.calls.proxy }
    requires mounts { Mounts serving.read.now.settings.mount serving.tasks.watching.mount }
    requires new { A.given files.old ≡ 0 }
    ensures ended { OnOk result (A.ended files.new ≡ true) }
    ensures limit { GivesLimit (A.given files.new) result }
    ensures broken { IfOk result (BreaksWhere K.steps (opened_on (arc_value place.desk))) }
    ensures cause { CountsServing (A.faults files.old) (A.faults files.new) (S.faults spawner.old) (S.faults spawner.new) result }
{
    let (mut means, mut place) = (means, place);
    let Some(mut last) = place.another(means.rt) else {
        return Err(MountFault::NoMemory);
    };
    let (Ok(closing), Ok(rounds)) = (
        Closing::new(means.alloc),
        rounds_word(means.alloc, &serving.tasks.duties),
    ) else {
        return Err(MountFault::NoMemory);
    };
    let served = serve_all(means, &mut place, files, serving, &closing, spawner);
    closing.close();
    match served {
        Ok(()) => Ok(end_serving(&mut means, &mut last, &rounds, spawner)),
        Err(fault) => Err(fault),
    }
}

/// Starts the jobs of these tasks, those of HTTP links and those of a proxy's, and serves file links.
fn serve_all<
    R: Handles + Copy + Send + 'static,
    K: Machine<Ask = Ask, Answer = Answer> + Send + Drop + 'static,
    A: Acceptor,
    B: Acceptor + Send + Drop + 'static,
    L: Link + Send + Drop + 'static,
    T: Dialer<L = L> + Send + Drop + 'static,
    E: Tell + Send + Drop + 'static,
    N: Mounter + Send + Drop + 'static,
    S: Spawner,
    C: Clock + Copy + Send + 'static,
    P: Pause + Copy + Send + 'static,
>(
    means: Means<R, C, P>,
    place: &mut Place<K>,
    files: &mut A,
    serving: Serving<'_, B, T, E, N, C>,
    closing: &Closing,
    spawner: &mut S,
) -> Result<(), MountFault>
    requires unused { HasSeenNone place.old.seat }
    requires duties { AreDutiesBy serving.read.now.settings serving.tasks.duties }
    requires passes { PassesOn serving.read.now.settings.proxy serving.calls.proxy }
    requires mounts { Mounts serving.read.now.settings.mount serving.tasks.watching.mount }
    requires new { A.given files.old ≡ 0 }
    ensures ended { OnOk result (A.ended files.new ≡ true) }
    ensures limit { GivesLimit (A.given files.new) result }
    ensures cause { CountsServing (A.faults files.old) (A.faults files.new) (S.faults spawner.old) (S.faults spawner.new) result }
{
    let Serving { read, calls, tasks } = serving;
    let Ok(calling) = Calling::of(
        &read.settings.database,
        &tasks.watching.notes,
        &tasks.meters,
    ) else {
        return Err(MountFault::NoMemory);
    };
    let Tasks {
        duties,
        watching,
        writer,
        meters: _,
    } = tasks;
    match start_tasks(means, place, duties, watching, closing, spawner) {
        Ok(()) => {}
        Err(fault) => return Err(fault),
    }
    let Calls { http, proxy } = calls;
    let door = Door {
        accept: http,
        calling,
    };
    match start_http(means, place, door, closing, spawner) {
        Ok(()) => {}
        Err(fault) => return Err(fault),
    }
    match start_proxy(means, place, proxy, closing, spawner) {
        Ok(()) => serve_file_links(means, place, files, &writer, spawner),
        Err(fault) => Err(fault),
    }
}

/// Starts the job that watches the node, and those of its duties.
fn start_tasks<
    R: Handles + Copy + Send + 'static,
    K: Machine<Ask = Ask, Answer = Answer> + Send + Drop + 'static,
    L: Link + Send + Drop + 'static,
    T: Dialer<L = L> + Send + Drop + 'static,
    E: Tell + Send + Drop + 'static,
    N: Mounter + Send + Drop + 'static,
    S: Spawner,
    C: Clock + Copy + Send + 'static,
    P: Pause + Copy + Send + 'static,
>(
    means: Means<R, C, P>,
    place: &mut Place<K>,
    duties: Option<Duties<T, C>>,
    watching: Watching<E, N>,
    closing: &Closing,
    spawner: &mut S,
) -> Result<(), MountFault>
    requires unused { HasSeenNone place.old.seat }
    ensures unused { HasSeenNone place.new.seat }
    ensures cause { CountsStarts (S.faults spawner.old) (S.faults spawner.new) result }
{
    match start_job(means, place, watching_work(watching, closing), spawner) {
        Ok(()) => start_duties(means, place, duties, closing, spawner),
        Err(fault) => Err(fault),
    }
}

/// Starts the jobs that follow a primary, and that of the rounds.
fn start_duties<
    R: Handles + Copy + Send + 'static,
    K: Machine<Ask = Ask, Answer = Answer> + Send + Drop + 'static,
    L: Link + Send + Drop + 'static,
    T: Dialer<L = L> + Send + Drop + 'static,
    S: Spawner,
    C: Clock + Copy + Send + 'static,
    P: Pause + Copy + Send + 'static,
>(
    means: Means<R, C, P>,
    place: &mut Place<K>,
    duties: Option<Duties<T, C>>,
    closing: &Closing,
    spawner: &mut S,
) -> Result<(), MountFault>
    requires unused { HasSeenNone place.old.seat }
    ensures unused { HasSeenNone place.new.seat }
    ensures cause { CountsStarts (S.faults spawner.old) (S.faults spawner.new) result }
{
    let Some(duties) = duties else {
        return Ok(());
    };
    let Duties { primary, rounds } = duties;
    match start_following(means, place, primary, closing, spawner) {
        Ok(()) => start_job(means, place, rounds_work(rounds, closing), spawner),
        Err(fault) => Err(fault),
    }
}
