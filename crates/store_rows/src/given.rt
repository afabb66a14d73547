//! What stores answer to files that sources give, where room was reserved for some pages.
use crate::samples::{A, B, FILLED_TO_6, ONE_AND_TWO, Sample, ZEROS_TO_8, encoding_of};
use crate::sources::take_from;
use crate::stages::{Stage, is_just};
use crate::steps::{Step, Taking, Way};
use crate::stores::{MemStore, calls_of, made, print_of, stopped};
use lf_base::Pos;
use std::alloc::Global;
use std::io;
use txn_log::FromFault;

/// A file that a source gives.
#[derive(Clone, Copy)]
struct Gift {
    taking: Taking,
    file: Sample,
    /// For so many pages there is room.
    room: u32,
    /// The call of the source that fails.
    failing: Option<u64>,
    /// How many bytes the source lacks at its end.
    cut: usize,
}

const APPLIED: Gift = Gift {
    taking: Taking::Apply,
    file: A,
    room: 1,
    failing: None,
    cut: 0,
};

const INSTALLED: Gift = Gift {
    taking: Taking::Install,
    ..APPLIED
};

/// A snapshot of one page: without room, from a source that fails, cut off, with room, and once more.
const APPLIED_TO_EMPTY: &[Gift] = &[
    Gift { room: 0, ..APPLIED },
    Gift {
        failing: Some(0),
        ..APPLIED
    },
    Gift { cut: 1, ..APPLIED },
    APPLIED,
    APPLIED,
];

/// A snapshot of one page: without room, from a source that fails at once and at its end, and cut off.
/// Then a file of transaction 2, the snapshot, and that file again.
const INSTALLED_IN_EMPTY: &[Gift] = &[
    Gift {
        room: 0,
        ..INSTALLED
    },
    Gift {
        failing: Some(0),
        ..INSTALLED
    },
    Gift {
        failing: Some(1),
        ..INSTALLED
    },
    Gift {
        cut: 1,
        ..INSTALLED
    },
    Gift {
        file: B,
        ..INSTALLED
    },
    INSTALLED,
    Gift {
        file: B,
        ..INSTALLED
    },
];

/// A file that is no snapshot, a snapshot without room, and with room.
const INSTALLED_IN_BROKEN: &[Gift] = &[
    Gift {
        file: B,
        room: 0,
        ..INSTALLED
    },
    Gift {
        room: 0,
        ..INSTALLED
    },
    INSTALLED,
];

/// A snapshot to transaction 6.
const REPLACING: &[Gift] = &[Gift {
    file: FILLED_TO_6,
    room: 2,
    ..INSTALLED
}];

const REPLACED: Stage = Stage {
    txid: 6,
    sum: ONE_AND_TWO,
    pages: &[1, 2],
    files: 1,
    dropped: false,
};

/// What a store answers.
fn answer(alloc: Global, store: &mut MemStore, gift: &Gift) -> Option<Result<Pos, FromFault>> {
    let encoding = encoding_of(alloc, &gift.file)?;
    let end = encoding.len().saturating_sub(gift.cut);
    let bytes = encoding.as_slice().get(..end).unwrap_or(&[]);
    take_from(alloc, store, gift.taking, gift.room, bytes, gift.failing)
}

/// Prints what a store answers.
fn print_answer(rt: HostRuntime, store: &mut MemStore, gift: &Gift) -> io::Result<()> {
    let room = gift.room;
    match answer(rt.alloc(), store, gift) {
        Some(Ok(told)) => println!(rt; "  room for {room}: ({}, {:x})", told.txid, told.sum),
        Some(Err(why)) => println!(rt; "  room for {room}: {why:?}"),
        None => println!(rt; "  no memory"),
    }
}

/// Prints what a store answers to each, and where it stands then.
fn print_gifts(
    rt: HostRuntime,
    title: &str,
    store: &mut MemStore,
    gifts: &[Gift],
) -> io::Result<()> {
    println!(rt; "{title}")?;
    for gift in gifts {
        print_answer(rt, store, gift)?;
        let stands = store.pos();
        println!(rt; "    at ({}, {:x})", stands.txid, stands.sum)?;
    }
    Ok(())
}

/// A store, if it was made, is given files.
fn print_to(
    rt: HostRuntime,
    title: &str,
    store: Option<MemStore>,
    gifts: &[Gift],
) -> io::Result<()> {
    print_of(
        rt,
        store,
        "no store",
        |store| print_gifts(rt, title, store, gifts),
    )
}

/// A first commit, of a page of zeros, and a file behind it.
const BREAKING: &[Step] = &[Step::Commit(1, &[(1, 0)]), Step::Apply(B)];

/// A store at transaction 1 that a failed call of its disk broke.
pub fn broken(alloc: Global) -> Option<MemStore> {
    let (calls, _) = calls_of(alloc, Way::Whole, BREAKING.get(..1)?)?;
    stopped(alloc, calls, Way::Whole, BREAKING, 1)
}

/// To transaction 9, with two files in the log.
const TO_NINE: &[Step] = &[Step::Apply(ZEROS_TO_8), Step::Commit(2, &[])];

fn print_replaced(rt: HostRuntime, store: &mut MemStore) -> io::Result<()> {
    print_gifts(rt, "a source installed in a store at 9", store, REPLACING)?;
    println!(rt; "  its pages and its log: {}", is_just(store, &REPLACED))
}

fn print_at_nine(rt: HostRuntime) -> io::Result<()> {
    let store = made(rt.alloc(), Way::Whole, TO_NINE);
    print_of(rt, store, "no store", |store| print_replaced(rt, store))
}

pub fn print_given(rt: HostRuntime) -> io::Result<()> {
    let empty = made(rt.alloc(), Way::Whole, &[]);
    print_to(
        rt,
        "a source applied to an empty store",
        empty,
        APPLIED_TO_EMPTY,
    )?;
    let empty = made(rt.alloc(), Way::Whole, &[]);
    print_to(
        rt,
        "a source installed in an empty store",
        empty,
        INSTALLED_IN_EMPTY,
    )?;
    print_to(
        rt,
        "a source installed in a broken store",
        broken(rt.alloc()),
        INSTALLED_IN_BROKEN,
    )?;
    print_at_nine(rt)
}
