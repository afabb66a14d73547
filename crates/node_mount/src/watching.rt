//! A node is watched: what it is is told, and what its jobs note; the program is kept running that mounts its files; and where its
//! store broke no more links come. Where no rounds prune its log, this job does.
ghost use Rattle.std.specs.Prelude.{◌≡◌, ◌++◌, max, IfOk};
ghost use Rattle.node_mount.specs.Duties.{retention_without_rounds};
ghost use Rattle.node_mount.specs.RoleLines.{start_behind, start_front};
ghost use Rattle.node_mount.specs.MountKeeping.{Mounts};

use crate::duties::stands_as_primary;
use crate::ending::info_of;
use crate::lease_rounds::{nap, prune};
use crate::means::Means;
use crate::mount_keeper::MountKeeper;
use crate::notes::{MOST, NoteKind, Notes};
use crate::place::Place;
use crate::repeats::{KINDS, Repeated};
use crate::role_told::RoleTold;
use crate::sessions::LINKS;
use crate::stillness::still_line;
use crate::work::Work;
use lf_base::{Clock, Closing, Handles, NoMemory, Pause};
use node_core::{Answer, Ask, NodeInfo};
use node_objects::{Line, Lines, Mounter, Tell};
use node_settings::Settings;
use std::alloc::Global;
use turn_desk::Machine;

/// How many naps lie between two looks at the node.
const NAPS: u64 = 4;

/// What watches a node.
#[derive(Drop)]
pub struct Watching<E, N> {
    pub lines: Lines<E>,
    /// What stands in front of the role and behind it in the line of its start.
    pub front: Line,
    pub behind: Line,
    /// What the jobs note.
    pub notes: Notes,
    /// What keeps the program running that mounts the node's files, where one does.
    pub mount: Option<MountKeeper<N>>,
    /// How many milliseconds may lie between two looks: those of a lease, and a second at least.
    pub lease: u64,
    /// How many files of the log are kept, where no rounds prune it.
    pub retention: Option<u64>,
    /// Once it is closed no more links come.
    pub ending: Closing,
}

/// What watches a node of these settings.
pub fn watching_of<E: Drop, N: Drop>(
    alloc: Global,
    settings: &Settings,
    lines: Lines<E>,
    notes: Notes,
    mount: Option<MountKeeper<N>>,
    ending: Closing,
) -> Result<Watching<E, N>, NoMemory>
    requires mounts { Mounts settings.now.mount mount }
    ensures front { IfOk result (λ watching. watching.front ≡ start_front settings.now) }
    ensures behind { IfOk result (λ watching. watching.behind ≡ start_behind settings.now) }
    ensures lease { IfOk result (λ watching. watching.lease ≡ max settings.now.lease.ttl 1000) }
    ensures retention { IfOk result (λ watching. watching.retention ≡ retention_without_rounds settings.now) }
    ensures mounts { IfOk result (λ watching. Mounts settings.now.mount watching.mount) }
{
    let front = front_of(alloc, settings)?;
    let behind = behind_of(alloc, settings)?;
    Ok(Watching {
        lines,
        front,
        behind,
        notes,
        mount,
        lease: settings.lease.ttl.max(1000),
        retention: retention_without_rounds(settings),
        ending,
    })
}

/// How many files of its log a node keeps that makes no rounds, which is a static primary.
fn retention_without_rounds(settings: &Settings) -> Option<u64>
    ensures { result ≡ retention_without_rounds settings.now }
{
    if stands_as_primary(&settings.lease) {
        Some(settings.retention_files)
    } else {
        None
    }
}

/// What stands in front of the role: the version of the program, as the file VERSION says it, among it.
fn front_of(alloc: Global, settings: &Settings) -> Result<Line, NoMemory>
    ensures { IfOk result (λ line. line ≡ start_front settings.now) }
{
    let mut line = Line::of(alloc, b"start 0.1.0: database ")?;
    line.put(settings.database.bytes())?;
    line.put(b", ")?;
    Ok(line)
}

/// What stands behind it.
fn behind_of(alloc: Global, settings: &Settings) -> Result<Line, NoMemory>
    ensures { IfOk result (λ line. line ≡ start_behind settings.now) }
{
    let mut line = Line::of(alloc, b", files on ")?;
    line.put(settings.socket.bytes())?;
    line.put(b", http on ")?;
    line.put(settings.http.text().bytes())?;
    Ok(line)
}

/// The work of the job that watches.
pub fn watching_work<E: Drop, N: Drop>(
    watching: Watching<E, N>,
    closing: &Closing,
) -> Result<Watcher<E, N>, NoMemory> {
    let closing = closing.another()?;
    Ok(Watcher { watching, closing })
}

/// The work of the job.
#[derive(Drop)]
pub struct Watcher<E, N> {
    watching: Watching<E, N>,
    closing: Closing,
}

impl<E: Tell + Drop, N: Mounter + Drop> Work for Watcher<E, N> {
    /// Looks at the node one time after another, and at the program that mounts its files, until one of the words is closed, or
    /// its store broke: then it closes the word by which no more links come.
    fn go<
        R: Handles + Copy,
        K: Machine<Ask = Ask, Answer = Answer> + Drop,
        C: Clock + Copy,
        P: Pause + Copy,
    >(self, means: Means<R, C, P>, place: Place<K>) {
        let Watcher { watching, closing } = self;
        let (mut means, mut place, mut watching) = (means, place, watching);
        let mut told = RoleTold::new(Line::new(means.alloc));
        let mut repeated = Repeated::new(means.alloc);
        let mut last = means.clock.now_ms();
        let mut looks = 0u64;
        for _ in 0..LINKS {
            last = tell_stillness(&mut means, &mut watching, last);
            if look(&mut means, &mut place, &mut watching, &mut told, looks == 0) {
                watching.ending.close_doors(&means.rt);
            }
            shorten(&mut means, &mut place, watching.retention);
            keep_mounted(&mut means, &mut watching);
            tell_notes(&mut means, &mut watching, &mut repeated);
            if watching.ending.is_closed() || closing.is_closed() {
                break;
            }
            looks = looks.saturating_add(1);
            nap(&mut means.pause, NAPS, &closing);
        }
    }
}

/// Looks at the node, and tells its start, or a change of its role. Answers whether its store broke.
fn look<R: Handles + Copy, K: Machine<Ask = Ask, Answer = Answer>, E: Tell, N, C: Clock, P: Pause>(
    means: &mut Means<R, C, P>,
    place: &mut Place<K>,
    watching: &mut Watching<E, N>,
    told: &mut RoleTold,
    first: bool,
) -> bool {
    let Some(info) = info_of(means, place) else {
        return false;
    };
    if let Ok(Some(line)) = told.next(means.alloc, &info) {
        let line = if first {
            start_line(means.alloc, watching, &line)
        } else {
            Ok(line)
        };
        watching.lines.say(&means.rt, line);
    }
    info.broken
}

/// Prunes the log to so many files, where no rounds do: an import and a commit that a replica sends prune nothing.
fn shorten<R: Handles + Copy, K: Machine<Ask = Ask, Answer = Answer>, C: Clock, P: Pause>(
    means: &mut Means<R, C, P>,
    place: &mut Place<K>,
    retention: Option<u64>,
) {
    if let Some(keep) = retention {
        let _ = prune(means, place, keep);
    }
}

/// Keeps the program running that mounts the node's files, where one does, and notes what came of that.
fn keep_mounted<R: Handles, E, N: Mounter, C: Clock, P>(
    means: &mut Means<R, C, P>,
    watching: &mut Watching<E, N>,
) {
    let Some(keeper) = &mut watching.mount else {
        return;
    };
    let now = means.clock.now_ms();
    if let Some(news) = keeper.keep(now) {
        let note = keeper.note(means.alloc, news);
        watching.notes.put(&means.rt, note);
    }
}

/// Tells what the jobs noted.
fn tell_notes<R: Handles, E: Tell, N, C: Clock, P>(
    means: &mut Means<R, C, P>,
    watching: &mut Watching<E, N>,
    repeated: &mut Repeated,
) {
    for _ in 0..MOST {
        let Some(note) = watching.notes.take(&means.rt) else {
            break;
        };
        let now = means.clock.now_ms();
        let told = repeated.next(means.alloc, note, now);
        say_some(&means.rt, &mut watching.lines, told);
    }
    for kind in KINDS {
        tell_again(means, watching, repeated, kind);
    }
}

/// Tells which notes of a kind came again, and how often.
fn tell_again<R: Handles, E: Tell, N, C: Clock, P>(
    means: &mut Means<R, C, P>,
    watching: &mut Watching<E, N>,
    repeated: &mut Repeated,
    kind: NoteKind,
) {
    let now = means.clock.now_ms();
    for place in 0..repeated.count() {
        let told = repeated.due(means.alloc, kind, place, now);
        say_some(&means.rt, &mut watching.lines, told);
    }
}

/// Tells that the node stood still, where so much time has passed since the last look. Answers the moment of this one.
fn tell_stillness<R: Handles, E: Tell, N, C: Clock, P>(
    means: &mut Means<R, C, P>,
    watching: &mut Watching<E, N>,
    last: u64,
) -> u64 {
    let now = means.clock.now_ms();
    let line = still_line(means.alloc, last, now, watching.lease);
    say_some(&means.rt, &mut watching.lines, line);
    now
}

fn say_some<R: Handles, E: Tell>(
    rt: &R,
    lines: &mut Lines<E>,
    line: Result<Option<Line>, NoMemory>,
) {
    if let Ok(Some(line)) = line {
        lines.say(rt, Ok(line));
    }
}

/// The line of a start, in which this one of a role stands.
fn start_line<E, N>(alloc: Global, watching: &Watching<E, N>, role: &Line) -> Result<Line, NoMemory>
    ensures { IfOk result (λ line. line ≡ watching.now.front ++ role.now ++ watching.now.behind) }
{
    let mut line = Line::new(alloc);
    line.put_line(&watching.front)?;
    line.put_line(role)?;
    line.put_line(&watching.behind)?;
    Ok(line)
}
