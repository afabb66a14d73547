//! The first four requests: the session, the lock's file, its handle, the lock.

ghost use Rattle.std.specs.Prelude.{ℕ, IfOk, IfErr, OnOk};
ghost use Rattle.fuse_msgs.specs.declared.reply.Reply.TheVariants as reply;
ghost use Rattle.run_child.specs.Course.{IsFound, IsGranted, IsOpened, StopsEarly};
ghost use Rattle.run_child.specs.Requests as spec;
ghost use Rattle.run_child.specs.Closing.{IsClosing};
ghost use Rattle.run_child.specs.Talk.{Asked, Stopped, place};

use crate::asking::ask;
use crate::child_end::ChildEnd;
use crate::closing::Closing;
use crate::requests::{Handle, init, look_up, open_file, take_lock};
use fuse_msgs::Reply;
use lf_base::{Link, Name};
use std::alloc::Global;

/// Takes the lock, and gives what ends the session again, for which all memory is found before the
/// lock is asked for.
pub fn take_halt<L: Link>(
    alloc: Global,
    link: &mut L,
    name: &Name,
    room: &mut u64,
) -> Result<Closing, ChildEnd>
    ensures granted { IfOk result (λ closing. (node fh : ℕ) × IsGranted name.now node fh (place L.Link link.old room.old) (place L.Link link.new room.new) × IsClosing node fh closing) }
    ensures stopped { IfErr result (StopsEarly name.now (place L.Link link.old room.old) (place L.Link link.new room.new)) }
{
    match open_lock(alloc, link, name, room) {
        Ok(handle) => hold(alloc, link, handle, room),
        Err(end) => Err(end),
    }
}

/// Takes the lock of the opened file.
fn hold<L: Link>(
    alloc: Global,
    link: &mut L,
    handle: Handle,
    room: &mut u64,
) -> Result<Closing, ChildEnd>
    ensures held { IfOk result (λ closing. Asked (spec.take_lock handle.node handle.fh) reply.Empty (place L.Link link.old room.old) (place L.Link link.new room.new)
        × IsClosing handle.node handle.fh closing) }
    ensures stopped { IfErr result (Stopped (spec.take_lock handle.node handle.fh) (place L.Link link.old room.old) (place L.Link link.new room.new)) }
{
    match Closing::of(alloc, handle) {
        Ok(closing) => match ask_lock(alloc, link, handle, room) {
            Ok(()) => Ok(closing),
            Err(end) => Err(end),
        },
        Err(_) => Err(ChildEnd::NoMemory),
    }
}

/// Asks for the lock.
fn ask_lock<L: Link>(
    alloc: Global,
    link: &mut L,
    handle: Handle,
    room: &mut u64,
) -> Result<(), ChildEnd>
    ensures held { OnOk result (Asked (spec.take_lock handle.node handle.fh) reply.Empty (place L.Link link.old room.old) (place L.Link link.new room.new)) }
    ensures stopped { IfErr result (Stopped (spec.take_lock handle.node handle.fh) (place L.Link link.old room.old) (place L.Link link.new room.new)) }
{
    let request = take_lock(handle);
    match ask(alloc, link, &request, room) {
        Ok(answer) => match answer {
            Reply::Empty => Ok(()),
            _ => unreachable!(),
        },
        Err(end) => Err(end),
    }
}

/// Finds the lock's file and opens it.
fn open_lock<L: Link>(
    alloc: Global,
    link: &mut L,
    name: &Name,
    room: &mut u64,
) -> Result<Handle, ChildEnd>
    ensures opened { IfOk result (λ handle. IsOpened name.now handle.node handle.fh (place L.Link link.old room.old) (place L.Link link.new room.new)) }
    ensures stopped { IfErr result (StopsEarly name.now (place L.Link link.old room.old) (place L.Link link.new room.new)) }
{
    match find_lock(alloc, link, name, room) {
        Ok(node) => match ask_open(alloc, link, node, room) {
            Ok(fh) => Ok(Handle { node, fh }),
            Err(end) => Err(end),
        },
        Err(end) => Err(end),
    }
}

/// Opens the file of a node.
fn ask_open<L: Link>(
    alloc: Global,
    link: &mut L,
    node: u64,
    room: &mut u64,
) -> Result<u64, ChildEnd>
    ensures opened { IfOk result (λ fh. Asked (spec.open_file node) (reply.Opened fh) (place L.Link link.old room.old) (place L.Link link.new room.new)) }
    ensures stopped { IfErr result (Stopped (spec.open_file node) (place L.Link link.old room.old) (place L.Link link.new room.new)) }
{
    let request = open_file(node);
    match ask(alloc, link, &request, room) {
        Ok(answer) => match answer {
            Reply::Opened { fh } => Ok(fh),
            _ => unreachable!(),
        },
        Err(end) => Err(end),
    }
}

/// Begins the session and finds the node of the lock's file.
fn find_lock<L: Link>(
    alloc: Global,
    link: &mut L,
    name: &Name,
    room: &mut u64,
) -> Result<u64, ChildEnd>
    ensures found { IfOk result (λ node. IsFound name.now node (place L.Link link.old room.old) (place L.Link link.new room.new)) }
    ensures stopped { IfErr result (StopsEarly name.now (place L.Link link.old room.old) (place L.Link link.new room.new)) }
{
    match begin(alloc, link, room) {
        Ok(()) => ask_node(alloc, link, name, room),
        Err(end) => Err(end),
    }
}

/// Looks the lock's file up.
fn ask_node<L: Link>(
    alloc: Global,
    link: &mut L,
    name: &Name,
    room: &mut u64,
) -> Result<u64, ChildEnd>
    ensures found { IfOk result (λ node. (size : ℕ) × Asked (spec.look_up name.now) (reply.Entry node size) (place L.Link link.old room.old) (place L.Link link.new room.new)) }
    ensures stopped { IfErr result (Stopped (spec.look_up name.now) (place L.Link link.old room.old) (place L.Link link.new room.new)) }
{
    let Ok(request) = look_up(alloc, name) else {
        return Err(ChildEnd::NoMemory);
    };
    match ask(alloc, link, &request, room) {
        Ok(answer) => match answer {
            Reply::Entry { node, .. } => Ok(node),
            _ => unreachable!(),
        },
        Err(end) => Err(end),
    }
}

/// Begins the session.
fn begin<L: Link>(alloc: Global, link: &mut L, room: &mut u64) -> Result<(), ChildEnd>
    ensures begun { OnOk result (Asked spec.init reply.Init (place L.Link link.old room.old) (place L.Link link.new room.new)) }
    ensures stopped { IfErr result (Stopped spec.init (place L.Link link.old room.old) (place L.Link link.new room.new)) }
{
    let request = init();
    match ask(alloc, link, &request, room) {
        Ok(answer) => match answer {
            Reply::Init => Ok(()),
            _ => unreachable!(),
        },
        Err(end) => Err(end),
    }
}
