//! A node is started, serves, and stops.
ghost use Rattle.std.specs.Prelude.{◌≡◌, IfOk};
ghost use Rattle.std.specs.Arc.{arc_value};
ghost use Rattle.node_core.specs.Nodes.{parts_of};
ghost use Rattle.node_mount.specs.Asking.{Asks, AsksAsRead, AsksLinks, AsksMount};
ghost use Rattle.node_mount.specs.Configuring.{ReadsConfiguration};
ghost use Rattle.node_mount.specs.Damage.{DamageHasCause};
ghost use Rattle.node_mount.specs.Doors.{PassesOn};
ghost use Rattle.node_mount.specs.Ending.{BreaksWhere, CountsEnd, EndsAs, EndsBroken};
ghost use Rattle.node_objects.specs.Making.{IsNew};
ghost use Rattle.node_mount.specs.Mounting.{fault_of as named, IsMountCause, IsOpened, IsPastReading, IsServing, RaisesFor};
ghost use Rattle.node_mount.specs.Opening.{config_of as given, IsOpenedBy};
ghost use Rattle.node_mount.specs.Places.{IsUnused};
ghost use Rattle.node_mount.specs.Returns.{CameBack};
ghost use Rattle.turn_desk.specs.Seats.{opened_on};

use crate::configuration::Configuration;
use crate::configuring::read_configuration;
use crate::damage::tell_unrecovered;
use crate::doors::{Doors, Unmade, make_doors};
use crate::ending::End;
use crate::means::Means;
use crate::mount_fault::MountFault;
use crate::opening::{OpenFault, config_of, open_place, open_recovered};
use crate::patience::following_patience;
use crate::place::Place;
use crate::serving::{Serving, serve_links};
use crate::tasks::{dialer_of_service, mount_of, tasks_of};
use lf_base::{Handles, Source};
use node_core::Node;
use node_objects::{FailedCall, Lines, Maker, broken_line, tell_complaint, tell_obstacle};
use node_recovery::RecoverFault;
use node_settings::Settings;
use std::alloc::Global;
use turn_desk::Machine;

/// Runs the node that a configuration says, until no more file links come.
///
/// The configuration is read, the disk made, the node opened over it, and the acceptors made. What is no
/// configuration is complained of in a line. Each link has a session of its own. What was made for the caller's own thread comes back.
pub fn mount<R: Handles + Copy + Send + 'static, G: Source, M: Maker>(
    rt: R,
    alloc: Global,
    config: &mut G,
    make: &mut M,
) -> Result<(), MountFault>
    ensures config { ReadsConfiguration (G.left config.old) (G.left config.new) result }
    ensures asked { AsksAsRead (G.left config.old) (G.left config.new) (M.asked make.old) (M.asked make.new) result }
    ensures back { CameBack M.FileAccept.ended M.FileAccept.given (M.back make.old) (M.back make.new) result }
    ensures damage { DamageHasCause M.Disk.honest M.Disk.history (M.may_give make.old) (M.back make.old) (M.back make.new) result }
    ensures cause { IsMountCause (G.faults config.old) (G.faults config.new) (M.counts make.old) (M.counts make.new) result }
{
    let mut complaint = None;
    match read_configuration(alloc, config, &mut complaint) {
        Ok(read) => mount_disk(rt, alloc, &read, make),
        Err(fault) => {
            tell_complaint(&rt, alloc, &complaint, make);
            Err(fault)
        }
    }
}

/// Makes the disk and opens a node over it.
#[tactic(auto, using(crate::proofs::BackLemmas::one_back))]
fn mount_disk<R: Handles + Copy + Send + 'static, M: Maker>(
    rt: R,
    alloc: Global,
    read: &Configuration,
    make: &mut M,
) -> Result<(), MountFault>
    ensures asked { Asks read.now.settings (M.asked make.old) (M.asked make.new) result }
    ensures back { CameBack M.FileAccept.ended M.FileAccept.given (M.back make.old) (M.back make.new) result }
    ensures damage { DamageHasCause M.Disk.honest M.Disk.history (M.may_give make.old) (M.back make.old) (M.back make.new) result }
    ensures cause { RaisesFor (M.counts make.old) (M.counts make.new) result }
    ensures kind { IsPastReading result }
{
    let Ok(config) = config_of(alloc, &read.settings, make.node_id()) else {
        return Err(MountFault::NoMemory);
    };
    let disk = match make.disk(&read.settings.database) {
        Ok(disk) => disk,
        Err(_) => {
            tell_obstacle(
                &rt,
                alloc,
                b"open dbs/",
                read.settings.database.bytes(),
                read.settings.log,
                make,
            );
            return Err(MountFault::Disk);
        }
    };
    match open_recovered(alloc, disk, config) {
        Ok(node) => mount_node(rt, alloc, read, node, make),
        Err(OpenFault::Unrecovered(why, disk)) => {
            tell_unrecovered(&rt, alloc, &read.settings, why, make);
            make.back_disk(disk);
            Err(fault_of(why))
        }
        Err(OpenFault::NoMemory) => Err(MountFault::NoMemory),
    }
}

fn fault_of(why: RecoverFault) -> MountFault
    ensures { result ≡ named why }
{
    match why {
        RecoverFault::Disk => MountFault::Disk,
        RecoverFault::Damaged { .. } => MountFault::Damaged,
        RecoverFault::NoMemory => MountFault::NoMemory,
    }
}

/// Makes where links come from, for a node that was opened by these settings.
#[tactic(auto, using(crate::proofs::BackLemmas::one_back))]
fn mount_node<R: Handles + Copy + Send + 'static, M: Maker>(
    rt: R,
    alloc: Global,
    read: &Configuration,
    node: Node<M::Disk>,
    make: &mut M,
) -> Result<(), MountFault>
    requires opened { IsOpenedBy (given read.now.settings (M.number make.old)) (parts_of node) }
    ensures asked { AsksLinks read.now.settings (M.asked make.old) (M.asked make.new) result }
    ensures back { CameBack M.FileAccept.ended M.FileAccept.given (M.back make.old) (M.back make.new) result }
    ensures cause { RaisesFor (M.counts make.old) (M.counts make.new) result }
    ensures kind { IsOpened result }
    ensures broken { EndsBroken ⟦<Node<M::Disk> as Machine>⟧.steps node result }
{
    let Ok(place) = open_place(alloc, node) else {
        return Err(MountFault::NoMemory);
    };
    match make_doors(&rt, alloc, &read.settings, make) {
        Ok(doors) => serve_place(rt, alloc, read, place, doors, make),
        Err(Unmade::Network) => Err(MountFault::Network),
        Err(Unmade::NoMemory) => Err(MountFault::NoMemory),
    }
}

/// Makes what else a node serves by, serves, and ends. The node was opened by these settings, and nobody
/// has asked it anything.
fn serve_place<R: Handles + Copy + Send + 'static, M: Maker>(
    rt: R,
    alloc: Global,
    read: &Configuration,
    place: Place<Node<M::Disk>>,
    doors: Doors<M::FileAccept, M::HttpAccept, M::Dial>,
    make: &mut M,
) -> Result<(), MountFault>
    requires opened { IsOpenedBy (given read.now.settings (M.number make.old)) (parts_of (opened_on (arc_value place.desk))) }
    requires unused { IsUnused place.seat (arc_value place.desk) }
    requires new { IsNew (M.FileAccept.given doors.files) (M.FileAccept.faults doors.files) (M.FileAccept.ended doors.files) }
    requires passes { PassesOn read.now.settings.proxy doors.calls.proxy }
    ensures asked { AsksMount read.now.settings (M.asked make.old) (M.asked make.new) }
    ensures back { CameBack M.FileAccept.ended M.FileAccept.given (M.back make.old) (M.back make.new) result }
    ensures cause { RaisesFor (M.counts make.old) (M.counts make.new) result }
    ensures kind { IsOpened result }
    ensures broken { EndsBroken ⟦<Node<M::Disk> as Machine>⟧.steps (opened_on (arc_value place.desk)) result }
{
    let served = serve_made(rt, alloc, read, place, doors, make);
    end_node(&rt, alloc, &read.settings, served, make)
}

/// Makes what else it serves by, serves, and takes back all.
fn serve_made<R: Handles + Copy + Send + 'static, M: Maker>(
    rt: R,
    alloc: Global,
    read: &Configuration,
    place: Place<Node<M::Disk>>,
    doors: Doors<M::FileAccept, M::HttpAccept, M::Dial>,
    make: &mut M,
) -> Result<End, MountFault>
    requires opened { IsOpenedBy (given read.now.settings (M.number make.old)) (parts_of (opened_on (arc_value place.desk))) }
    requires unused { IsUnused place.seat (arc_value place.desk) }
    requires new { IsNew (M.FileAccept.given doors.files) (M.FileAccept.faults doors.files) (M.FileAccept.ended doors.files) }
    requires passes { PassesOn read.now.settings.proxy doors.calls.proxy }
    ensures asked { AsksMount read.now.settings (M.asked make.old) (M.asked make.new) }
    ensures back { CameBack M.FileAccept.ended M.FileAccept.given (M.back make.old) (M.back make.new) result }
    ensures cause { RaisesFor (M.counts make.old) (M.counts make.new) result }
    ensures kind { IsServing result }
    ensures broken { IfOk result (BreaksWhere ⟦<Node<M::Disk> as Machine>⟧.steps (opened_on (arc_value place.desk))) }
{
    let Doors { mut files, calls } = doors;
    let (clock, pause) = (make.clock(), make.pause());
    let means = Means {
        rt,
        alloc,
        clock,
        pause,
    };
    let settings = &read.settings;
    let dialer = make.dialer(following_patience(&settings.lease));
    let asking = dialer_of_service(settings, make);
    let Ok(mount) = mount_of(alloc, settings, make) else {
        return Err(MountFault::NoMemory);
    };
    let Ok(tasks) = tasks_of(alloc, settings, &dialer, asking, mount, make) else {
        return Err(MountFault::NoMemory);
    };
    let mut spawner = make.spawner();
    let serving = Serving { read, calls, tasks };
    let served = serve_links(means, place, &mut files, serving, &mut spawner);
    make.back_files(files);
    make.back_dial(dialer);
    make.back_spawn(spawner);
    served
}

/// How a node ends that served so. Of a store that broke the maker is told, and a line says which call of
/// the disk failed. Behind that nothing is told.
fn end_node<R: Handles, M: Maker>(
    rt: &R,
    alloc: Global,
    settings: &Settings,
    served: Result<End, MountFault>,
    make: &mut M,
) -> Result<(), MountFault>
    ensures kept { (M.asked make.new ≡ M.asked make.old) × (M.back make.new ≡ M.back make.old) }
    ensures ends { EndsAs served (M.counts make.old) (M.counts make.new) result }
{
    let mut lines = Lines::new(make.tell(), settings.log);
    let failed = failed_call(&served, make);
    if let Ok(End::Broken) = served {
        lines.say(rt, broken_line(alloc, &settings.database, failed));
    }
    lines.close(rt);
    match served {
        Ok(End::Closed) => Ok(()),
        Ok(End::Broken) => Err(MountFault::Disk),
        Err(fault) => Err(fault),
    }
}

/// Tells the maker of a store that broke. Answers which call of the disk failed, where it knows that.
fn failed_call<M: Maker>(served: &Result<End, MountFault>, make: &mut M) -> Option<FailedCall>
    ensures kept { (M.asked make.new ≡ M.asked make.old) × (M.back make.new ≡ M.back make.old) }
    ensures counts { CountsEnd served.now (M.counts make.old) (M.counts make.new) }
{
    match served {
        Ok(End::Broken) => make.broke(),
        _ => None,
    }
}
