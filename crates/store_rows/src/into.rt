//! The snapshot of a store is written into a sink of which a call fails, or from a disk that fails.
ghost use Rattle.std.specs.Prelude.{◌≡◌, length};

use crate::given::broken;
use crate::samples::{A, encoding_of};
use crate::sources::room;
use crate::steps::{Step, Way};
use crate::stores::{MemStore, calls_of, made, print_of, stopped};
use lf_base::VecSink;
use snapshot::{IntoFault, make_into};
use std::alloc::Global;
use std::io;

/// A first commit, of a page of zeros.
const COMMIT: &[Step] = &[Step::Commit(1, &[(1, 0)])];

/// So many writes are made of a sink: the header, a page's number and its bytes, the end and the sum.
const WRITES: u64 = 5;

/// For how many bytes a sink has room.
const ROOM: usize = 1_000;

/// A store of that page whose disk fails from here on.
fn failing(alloc: Global) -> Option<MemStore> {
    let (calls, _) = calls_of(alloc, Way::Whole, COMMIT)?;
    stopped(alloc, calls, Way::Whole, COMMIT, 1)
}

fn sink_of(alloc: Global, failing: u64) -> Option<VecSink> {
    let mut numbers = Vec::new(alloc);
    if numbers.push(failing).is_err() {
        return None;
    }
    VecSink::new(alloc, ROOM, numbers).ok()
}

/// Writes the snapshot of a store, if it was written.
fn writes(
    store: &mut MemStore,
    piece: &mut [u8],
    sink: &mut VecSink,
) -> Option<Result<(), IntoFault>>
    requires { length piece.old ≡ 65536 }
{
    if store.pos().txid == 0 {
        return None;
    }
    Some(make_into(store, piece, sink))
}

/// Prints how the writing ends, how many bytes the sink took, and whether these are a front of the file.
fn print_taken(
    rt: HostRuntime,
    file: &[u8],
    ended: Option<Result<(), IntoFault>>,
    sink: &VecSink,
) -> io::Result<()> {
    let taken = sink.taken();
    let is_front = file.starts_with(taken);
    match ended {
        Some(ended) => println!(rt;
            "{ended:?}, {} bytes, a front of the file: {is_front}",
            taken.len()
        ),
        None => println!(rt; "never written"),
    }
}

/// Writes a store's snapshot into a sink whose call of this number fails.
fn print_into(rt: HostRuntime, file: &[u8], store: &mut MemStore, failing: u64) -> io::Result<()> {
    let alloc = rt.alloc();
    let (Some(mut piece), Some(mut sink)) = (room(alloc), sink_of(alloc, failing)) else {
        return println!(rt; "no memory");
    };
    let ended = writes(store, piece.as_mut_slice(), &mut sink);
    print_taken(rt, file, ended, &sink)
}

/// Each write fails in turn, and then none.
fn print_writes(rt: HostRuntime, file: &[u8], store: &mut MemStore) -> io::Result<()> {
    for failing in 0..=WRITES {
        print!(rt; "  write {failing} fails: ")?;
        print_into(rt, file, store, failing)?;
    }
    Ok(())
}

fn print_all(rt: HostRuntime, file: &[u8], store: &mut MemStore) -> io::Result<()> {
    println!(rt; "a snapshot into a sink")?;
    print_writes(rt, file, store)?;
    print!(rt; "  its disk fails: ")?;
    print_of(
        rt,
        failing(rt.alloc()),
        "no store",
        |store| print_into(rt, file, store, WRITES),
    )?;
    print!(rt; "  a broken store: ")?;
    print_of(
        rt,
        broken(rt.alloc()),
        "no store",
        |store| print_into(rt, file, store, WRITES),
    )
}

pub fn print_snapshots(rt: HostRuntime) -> io::Result<()> {
    let alloc = rt.alloc();
    match (encoding_of(alloc, &A), made(alloc, Way::Whole, COMMIT)) {
        (Some(file), Some(mut store)) => {
            let printed = print_all(rt, file.as_slice(), &mut store);
            drop(store);
            printed
        }
        _ => println!(rt; "no store"),
    }
}
