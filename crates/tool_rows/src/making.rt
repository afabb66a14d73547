//! What a node is made of, and a lease service, and what a node is asked by.
ghost use Rattle.std.specs.Prelude.{All, IfOk};
ghost use Rattle.node_objects.specs.MemMaker.{IsNewDisk, IsNewDoor, IsNewPhone, IsNewSpawner};
ghost use Rattle.lf_base.specs.Doors.{IsUnused};

use crate::asks::AskRow;
use crate::leases::LeaseRow;
use crate::nodes::{NodeRow, ROOM};
use lf_base::{CallSpawner, FixedClock, ListAcceptor, MemDialer, MemLink, Watch};
use lf_disk::{Disk, FileName, MemDisk};
use node_objects::{MemMaker, MemParts, MemSpawn};
use std::alloc::Global;
use test_base::{Fault, NEVER, link_failing, one};

/// OPEN of the position file, and READ of it.
pub const ASKED: &[u8] = b"\x30\0\0\0\x0e\0\0\0\x06\0\0\0\0\0\0\0\x06\0\0\0\0\0\0\0\0\0\0\0\0\0\0\0\
    \0\0\0\0\0\0\0\0\0\0\0\0\0\0\0\0\
    \x50\0\0\0\x0f\0\0\0\x07\0\0\0\0\0\0\0\x06\0\0\0\0\0\0\0\0\0\0\0\0\0\0\0\
    \0\0\0\0\0\0\0\0\x01\0\0\0\0\0\0\0\0\0\0\0\0\0\0\0\0\x10\0\0\0\0\0\0\
    \0\0\0\0\0\0\0\0\0\0\0\0\0\0\0\0";

/// What shows what the two links of a node took.
#[derive(Drop)]
pub struct Links {
    pub files: Watch,
    pub http: Watch,
}

/// Writes a file of one transaction on a disk.
pub fn write_file<D: Disk>(disk: &mut D, txid: u64, file: &[u8]) -> Result<(), Fault> {
    let name = FileName::Ltx {
        min: txid,
        max: txid,
    };
    if disk.write(name, 0, file).is_err() || disk.sync(name).is_err() {
        return Err(Fault::Row);
    }
    Ok(())
}

/// A disk that has one file of the log, or a part of it, as a node finds it that was stopped.
#[tactic(auto, using(node_objects::proofs::DiskLemmas::rests))]
pub fn disk_with(alloc: Global, file: &[u8]) -> Result<MemDisk, Fault>
    ensures { IfOk result IsNewDisk }
{
    let mut disk = MemDisk::new(alloc, Vec::new(alloc), None).unwrap();
    write_file(&mut disk, 1, file)?;
    match disk.reopen() {
        Ok(disk) => Ok(disk),
        Err(_) => Err(Fault::NoMemory),
    }
}

/// An acceptor that gives these links, of which a call fails.
fn acceptor(alloc: Global, links: Vec<MemLink>, failing: u64) -> Result<Vec<ListAcceptor>, Fault>
    ensures { IfOk result (λ made. All IsNewDoor made.items) }
{
    let acceptor = ListAcceptor::new(links, one(alloc, failing)?).unwrap();
    Ok(one(alloc, acceptor)?)
}

/// A link that gives these bytes, of which a call fails, and what shows what is written on it.
pub fn watched_link(
    alloc: Global,
    input: &[u8],
    room: usize,
    failing: u64,
) -> Result<(MemLink, Watch), Fault>
    ensures { IfOk result (λ made. IsUnused made.0) }
{
    let link = link_failing(alloc, input, room, failing)?;
    let watch = link.watch();
    Ok((link, watch))
}

/// An acceptor that gives one such link, and whose call `accept` fails.
pub fn door(
    alloc: Global,
    input: &[u8],
    room: usize,
    accept: u64,
    failing: u64,
) -> Result<(Vec<ListAcceptor>, Watch), Fault>
    ensures { IfOk result (λ made. All IsNewDoor made.0.items) }
{
    let (link, watch) = watched_link(alloc, input, room, failing)?;
    Ok((acceptor(alloc, one(alloc, link)?, accept)?, watch))
}

/// A spawner that runs each job in place, but for one.
pub fn spawners(alloc: Global, failing: u64) -> Result<Vec<MemSpawn>, Fault>
    ensures { IfOk result (λ made. All IsNewSpawner made.items) }
{
    let spawner = CallSpawner::new(one(alloc, failing)?).unwrap();
    Ok(one(alloc, MemSpawn::Call(spawner))?)
}

/// Those of a row: none, where it has none.
fn spawners_of(alloc: Global, row: &NodeRow) -> Result<Vec<MemSpawn>, Fault>
    ensures { IfOk result (λ made. All IsNewSpawner made.items) }
{
    if row.refused {
        return Ok(Vec::new(alloc));
    }
    spawners(alloc, NEVER)
}

/// A maker of a node of these objects, of which a call fails.
pub fn node_maker(
    alloc: Global,
    disks: Vec<MemDisk>,
    files: Vec<ListAcceptor>,
    http: Vec<ListAcceptor>,
    spawners: Vec<MemSpawn>,
    failing: u64,
) -> Result<MemMaker, Fault>
    requires disks { All IsNewDisk disks.items }
    requires files { All IsNewDoor files.items }
    requires http { All IsNewDoor http.items }
    requires spawners { All IsNewSpawner spawners.items }
{
    let parts = MemParts {
        disks,
        files,
        http,
        dialers: Vec::new(alloc),
        spawners,
        clock: FixedClock::new(7),
        node: 9,
        places: 8,
        failing: one(alloc, failing)?,
    };
    Ok(MemMaker::new(alloc, parts)?)
}

/// One such disk.
fn one_disk_with(alloc: Global, file: &[u8]) -> Result<Vec<MemDisk>, Fault>
    ensures { IfOk result (λ made. All IsNewDisk made.items) }
{
    let disk = disk_with(alloc, file)?;
    Ok(one(alloc, disk)?)
}

/// What a row's node is made of, over a disk with this file.
pub fn maker_of(alloc: Global, row: &NodeRow, file: &[u8]) -> Result<(MemMaker, Links), Fault> {
    let disks = one_disk_with(alloc, row.log_of(file))?;
    let (files, file_link) = door(alloc, ASKED, ROOM, row.accepted, NEVER)?;
    let (http, http_link) = door(alloc, row.request, row.room, NEVER, NEVER)?;
    let links = Links {
        files: file_link,
        http: http_link,
    };
    let spawners = spawners_of(alloc, row)?;
    Ok((
        node_maker(alloc, disks, files, http, spawners, row.made)?,
        links,
    ))
}

/// Links that give these inputs, and what shows what is written on each.
fn links_of(alloc: Global, inputs: &[&[u8]]) -> Result<(Vec<MemLink>, Vec<Watch>), Fault> {
    let (mut links, mut watches) = (Vec::new(alloc), Vec::new(alloc));
    for input in inputs {
        let (link, watch) = watched_link(alloc, input, ROOM, NEVER)?;
        links.push(link)?;
        watches.push(watch)?;
    }
    Ok((links, watches))
}

/// What a row's lease service is made of, at the moment 1,000, and what shows what its links took.
pub fn service_of(alloc: Global, row: &LeaseRow) -> Result<(MemMaker, Vec<Watch>), Fault> {
    let (links, watches) = links_of(alloc, row.links)?;
    let http = acceptor(alloc, links, row.accepted)?;
    let parts = MemParts {
        disks: Vec::new(alloc),
        files: Vec::new(alloc),
        http,
        dialers: Vec::new(alloc),
        spawners: Vec::new(alloc),
        clock: FixedClock::new(1_000),
        node: 9,
        places: 8,
        failing: one(alloc, row.made)?,
    };
    let make = MemMaker::new(alloc, parts)?;
    Ok((make, watches))
}

/// What a run has that mounts nothing: these disks and dialers.
pub fn asking_maker(
    alloc: Global,
    disks: Vec<MemDisk>,
    dialers: Vec<MemDialer>,
) -> Result<MemMaker, Fault>
    requires disks { All IsNewDisk disks.items }
    requires dialers { All IsNewPhone dialers.items }
{
    let parts = MemParts {
        disks,
        files: Vec::new(alloc),
        http: Vec::new(alloc),
        dialers,
        spawners: Vec::new(alloc),
        clock: FixedClock::new(0),
        node: 1,
        places: 8,
        failing: Vec::new(alloc),
    };
    Ok(MemMaker::new(alloc, parts)?)
}

/// What a run has that asks nobody either.
pub fn empty_maker(alloc: Global) -> Result<MemMaker, Fault> {
    asking_maker(alloc, Vec::new(alloc), Vec::new(alloc))
}

/// The link that a row dials, if it dials one, and what shows what it took.
fn dialed(alloc: Global, row: &AskRow) -> Result<(Vec<MemLink>, Vec<Watch>), Fault>
    ensures { IfOk result (λ made. All IsUnused made.0.items) }
{
    let Some(reply) = row.reply else {
        return Ok((Vec::new(alloc), Vec::new(alloc)));
    };
    let (link, watch) = watched_link(alloc, reply, row.room, NEVER)?;
    Ok((one(alloc, link)?, one(alloc, watch)?))
}

/// A list of one dialer of these links, of which a dial fails.
pub fn dialers(alloc: Global, links: Vec<MemLink>, failing: u64) -> Result<Vec<MemDialer>, Fault>
    requires { All IsUnused links.items }
    ensures { IfOk result (λ made. All IsNewPhone made.items) }
{
    let dialer = MemDialer::new(alloc, links, 4, one(alloc, failing)?)?;
    Ok(one(alloc, dialer)?)
}

/// A maker of such a dialer.
pub fn dialing_maker(alloc: Global, links: Vec<MemLink>, failing: u64) -> Result<MemMaker, Fault>
    requires { All IsUnused links.items }
{
    let dialers = dialers(alloc, links, failing)?;
    asking_maker(alloc, Vec::new(alloc), dialers)
}

/// What a row's command asks a node by, and what shows what its link took.
pub fn asker_of(alloc: Global, row: &AskRow) -> Result<(MemMaker, Vec<Watch>), Fault> {
    let (links, watches) = dialed(alloc, row)?;
    Ok((dialing_maker(alloc, links, NEVER)?, watches))
}
