ghost use Rattle.std.specs.Prelude.{All};
ghost use Rattle.node_objects.specs.MemMaker.{IsNewDisk, IsNewDoor};

use crate::asking::asked_at;
use crate::same::same;
use lf_base::{FixedClock, ListAcceptor, Name, Text};
use lf_disk::MemDisk;
use node_objects::{Maker, MemMaker, MemParts, Returned};
use std::alloc::Global;
use std::net::{TcpListener, TcpStream};
use std::process::Abort;

#[tactic(auto, using(node_objects::proofs::DiskLemmas::rests))]
fn one_disk(rt: impl Copy + Abort, alloc: Global) -> Vec<MemDisk>
    ensures { All IsNewDisk result.items }
{
    let disk = MemDisk::new(alloc, Vec::new(alloc), None).expect(&rt, "a disk");
    let mut disks = Vec::new(alloc);
    disks.push(disk).expect(&rt, "memory");
    disks
}

fn one_acceptor(rt: impl Copy + Abort, alloc: Global) -> Vec<ListAcceptor>
    ensures { All IsNewDoor result.items }
{
    let accept = ListAcceptor::new(Vec::new(alloc), Vec::new(alloc)).expect(&rt, "an acceptor");
    let mut all = Vec::new(alloc);
    all.push(accept).expect(&rt, "memory");
    all
}

/// One disk, one acceptor of each kind, no dialer and no spawner. The second call fails.
fn maker(rt: impl Copy + Abort, alloc: Global) -> MemMaker {
    let disks = one_disk(rt, alloc);
    let files = one_acceptor(rt, alloc);
    let http = one_acceptor(rt, alloc);
    let failing = vec![in alloc; 1u64].expect(&rt, "memory");
    let parts = MemParts {
        disks,
        files,
        http,
        dialers: Vec::new(alloc),
        spawners: Vec::new(alloc),
        clock: FixedClock::new(7),
        node: 9,
        places: 2,
        failing,
    };
    let made = MemMaker::new(alloc, parts);
    made.expect(&rt, "a maker")
}

#[test]
fn objects_are_given_and_fail(rt: HostRuntime) {
    let mut maker = maker(rt, rt.alloc());
    let name = Name::read(rt.alloc(), b"app").expect(&rt, "a name");
    let path = Text::of(rt.alloc(), "s").expect(&rt, "a path");
    same(rt, maker.disk(&name).is_ok(), true);
    same(rt, maker.files(&path).is_err(), true);
    same(rt, maker.disk(&name).is_err(), true);
    same(rt, maker.files(&path).is_ok(), true);
    same(rt, maker.http(&path, 0).is_ok(), true);
    same(rt, maker.node_id(), 9);
}

/// There are two places.
#[test]
fn what_is_asked_for_is_told(rt: HostRuntime) {
    let mut maker = maker(rt, rt.alloc());
    let name = Name::read(rt.alloc(), b"app").expect(&rt, "a name");
    let path = Text::of(rt.alloc(), "s").expect(&rt, "a path");
    same(rt, maker.disk(&name).is_ok(), true);
    same(rt, maker.files(&path).is_err(), true);
    let asked = maker.asked().expect(&rt, "told");
    same(rt, asked.len(), 2);
    same(rt, asked_at(rt, asked, 0), ('d', "app", true));
    same(rt, asked_at(rt, asked, 1), ('f', "s", false));
    same(rt, maker.http(&path, 0).is_ok(), true);
    same(rt, maker.asked().is_none(), true);
}

/// There are two places.
#[test]
fn objects_are_taken_back(rt: HostRuntime) {
    let _named: Option<(TcpListener, TcpStream)> = None;
    let mut maker = maker(rt, rt.alloc());
    let dialer = maker.dialer(0);
    let spawner = maker.spawner();
    maker.back_dial(dialer);
    maker.back_spawn(spawner);
    let back = matches!(
        &maker.back(),
        Some([Returned::Dialer(_), Returned::Spawner(_)])
    );
    same(rt, back, true);
    let dialer = maker.dialer(0);
    maker.back_dial(dialer);
    same(rt, maker.back().is_none(), true);
}
