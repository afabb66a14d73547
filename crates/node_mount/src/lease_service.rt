//! A lease service is started, serves, and stops.
ghost use Rattle.std.specs.Prelude.{◌≡◌, true, OnOk};
ghost use Rattle.node_mount.specs.Complaining.{ComplainsOf, ComplainsOfRead};
ghost use Rattle.node_mount.specs.Configuring.{CountsSource};
ghost use Rattle.node_mount.specs.LeaseService.{CountsAccepts, LeasesBack, ReadsService, ReadsSettings, SaysService, ServesAnew, ServesLinks, ServesTold};
ghost use Rattle.node_mount.specs.Mounting.{IsMountCause, IsOfReading, IsPastReading, RaisesFor};
ghost use Rattle.node_mount.specs.Serving.{GivesLimit};
ghost use Rattle.node_settings.specs.Rules.{service_rules};

use crate::configuring::{SIZE_MAX, new_piece, read_pieces};
use crate::means::BUDGET;
use crate::mount_fault::MountFault;
use crate::patience::lease_patience;
use crate::sessions::LINKS;
use lease_core::LeaseTable;
use lease_link::{Waited, serve_lease};
use lf_base::{Acceptor, Clock, Handles, Source, Text};
use node_objects::{Maker, tell_complaint, tell_unheard};
use node_settings::{Complaint, ServiceSettings, SettingsRefusal, read_service_settings};
use std::alloc::Global;

/// Runs the lease service that a configuration says, until no more links come.
///
/// The configuration is read. Then it waits as long as a lease lasts, so that each grant of a service
/// before it has ended, and only then it listens. The links are served one after another, over one
/// table. The acceptor comes back.
pub fn serve_leases<R: Handles, G: Source, M: Maker>(
    rt: &R,
    alloc: Global,
    config: &mut G,
    make: &mut M,
) -> Result<(), MountFault>
    ensures config { ReadsService (G.left config.old) (G.left config.new) result }
    ensures back { LeasesBack M.HttpAccept.ended M.HttpAccept.given (ServesTold M.HttpAccept.L.Link (G.left config.old) (G.left config.new)) (M.back make.old) (M.back make.new) result }
    ensures cause { IsMountCause (G.faults config.old) (G.faults config.new) (M.counts make.old) (M.counts make.new) result }
{
    let mut complaint = None;
    match read_service(alloc, config, &mut complaint) {
        Ok(settings) => serve_settings(rt, alloc, &settings, make),
        Err(fault) => {
            tell_complaint(rt, alloc, &complaint, make);
            Err(fault)
        }
    }
}

/// The settings that a source says. It is read to its end, or until it is known to be too long.
fn read_service<G: Source>(
    alloc: Global,
    source: &mut G,
    complaint: &mut Option<Complaint>,
) -> Result<ServiceSettings, MountFault>
    ensures complaint { ComplainsOfRead service_rules (G.left source.old) (G.left source.new) result complaint.new }
    ensures config { ReadsSettings (G.left source.old) (G.left source.new) result }
    ensures cause { CountsSource (G.faults source.old) (G.faults source.new) result }
    ensures kind { IsOfReading result }
{
    let Ok(mut piece) = new_piece(alloc) else {
        return Err(MountFault::NoMemory);
    };
    let mut bytes = Vec::new(alloc);
    read_pieces(source, SIZE_MAX, piece.as_mut_slice(), &mut bytes)?;
    settings_in(alloc, bytes.as_slice(), complaint)
}

fn settings_in(
    alloc: Global,
    bytes: &[u8],
    complaint: &mut Option<Complaint>,
) -> Result<ServiceSettings, MountFault>
    ensures says { SaysService bytes.now result }
    ensures complaint { ComplainsOf service_rules bytes.now result complaint.new }
{
    match read_service_settings(alloc, bytes) {
        Ok(settings) => Ok(settings),
        Err(SettingsRefusal::Config(found)) => {
            *complaint = Some(found);
            Err(MountFault::Config)
        }
        Err(SettingsRefusal::NoMemory) => Err(MountFault::NoMemory),
    }
}

/// Waits, and then serves.
fn serve_settings<R: Handles, M: Maker>(
    rt: &R,
    alloc: Global,
    settings: &ServiceSettings,
    make: &mut M,
) -> Result<(), MountFault>
    ensures back { LeasesBack M.HttpAccept.ended M.HttpAccept.given (ServesAnew M.HttpAccept.L.Link settings.now.ttl) (M.back make.old) (M.back make.new) result }
    ensures cause { RaisesFor (M.counts make.old) (M.counts make.new) result }
    ensures kind { IsPastReading result }
{
    let (mut clock, mut pause) = (make.clock(), make.pause());
    let waited = Waited::after(settings.ttl, &mut clock, &mut pause);
    serve_waited(rt, alloc, settings.http.text(), &waited, &mut clock, make)
}

/// Listens at this address, having waited, and serves the links.
fn serve_waited<R: Handles, M: Maker>(
    rt: &R,
    alloc: Global,
    address: &Text,
    waited: &Waited,
    clock: &mut M::Clock,
    make: &mut M,
) -> Result<(), MountFault>
    ensures back { LeasesBack M.HttpAccept.ended M.HttpAccept.given (ServesAnew M.HttpAccept.L.Link waited.now.ttl) (M.back make.old) (M.back make.new) result }
    ensures cause { RaisesFor (M.counts make.old) (M.counts make.new) result }
    ensures kind { IsPastReading result }
{
    let mut http = match make.http(address, lease_patience(waited.ttl())) {
        Ok(http) => http,
        Err(_) => {
            tell_unheard(rt, alloc, address, true, make);
            return Err(MountFault::Network);
        }
    };
    let mut table = LeaseTable::new(alloc, waited.ttl());
    let served = serve_each(rt, alloc, &mut http, &mut table, clock);
    make.back_http(http);
    served
}

/// Serves one link after another over this table, until no more come.
fn serve_each<R: Handles, A: Acceptor, C: Clock>(
    rt: &R,
    alloc: Global,
    accept: &mut A,
    table: &mut LeaseTable,
    clock: &mut C,
) -> Result<(), MountFault>
    requires { A.given accept.old ≡ 0 }
    ensures served { ServesLinks A.L.Link (C.may_give clock.old) table.old (A.given accept.new) table.new }
    ensures ended { OnOk result (A.ended accept.new ≡ true) }
    ensures limit { GivesLimit (A.given accept.new) result }
    ensures cause { CountsAccepts (A.faults accept.old) (A.faults accept.new) result }
{
    for _ in 0..LINKS {
        let mut link = match accept.accept(rt) {
            Ok(Some(link)) => link,
            Ok(None) => return Ok(()),
            Err(_) => return Err(MountFault::Network),
        };
        // However its session ends, the next link is served.
        serve_lease(alloc, table, &mut link, clock, BUDGET);
    }
    Err(MountFault::Limit)
}
