//! What followers at some positions are owed.
use crate::samples::B;
use crate::steps::{Step, Way};
use crate::stores::{MemStore, made, print_of};
use lf_base::Pos;
use std::io;
use test_base::{ONE_PAGE, TWO_PAGES};
use txn_log::LastFile;

/// A first commit of a page of zeros.
const COMMIT: Step = Step::Commit(1, &[(1, 0)]);

/// Each adds a page of zeros.
const FOUR: &[Step] = &[
    COMMIT,
    Step::Apply(B),
    Step::Commit(3, &[]),
    Step::Commit(4, &[]),
];

/// A position that no log has.
const UNKNOWN: Pos = Pos { txid: 9, sum: 1 };

const NOWHERE: Pos = Pos { txid: 0, sum: 0 };

const FIRST: Pos = Pos {
    txid: 1,
    sum: ONE_PAGE,
};

const SECOND: Pos = Pos {
    txid: 2,
    sum: TWO_PAGES,
};

const FOURTH: Pos = Pos {
    txid: 4,
    sum: 0x8138_2ec0_0000_0000,
};

/// One that the log would have, if another page had been committed first.
const OTHER: Pos = Pos {
    txid: 1,
    sum: TWO_PAGES,
};

/// Where followers stand before the prune, after it, and around a drop.
const BEFORE: &[Pos] = &[UNKNOWN, FOURTH, NOWHERE, FIRST, OTHER];

const AFTER: &[Pos] = &[NOWHERE, FIRST, SECOND, FOURTH];

const AROUND: &[Pos] = &[UNKNOWN, NOWHERE];

/// Prints what followers at these positions are owed.
fn print_owed(rt: HostRuntime, store: &MemStore, positions: &[Pos]) -> io::Result<()> {
    for position in positions {
        let answer = store.answer(*position, false);
        println!(rt; "  at ({}, {:x}): {answer:?}", position.txid, position.sum)?;
    }
    Ok(())
}

/// What followers are owed by a log of four files, and once it lost two.
fn print_pruned(rt: HostRuntime, store: &mut MemStore) -> io::Result<()> {
    let last = store.pos();
    println!(rt; "a log of four files, at ({}, {:x})", last.txid, last.sum)?;
    print_owed(rt, store, BEFORE)?;
    println!(rt; "pruned to two: {:?}", store.prune(2))?;
    print_owed(rt, store, AFTER)
}

pub fn print_log(rt: HostRuntime) -> io::Result<()> {
    let store = made(rt.alloc(), Way::Whole, FOUR);
    print_of(rt, store, "no log of four", |store| print_pruned(rt, store))
}

/// The file checksum of the last of the four, by an LTX encoder of another language.
const LAST_SUM: u64 = 9868616420478503202;

/// What a follower at the end of the log says of its last file.
const SAID: &[Option<LastFile>] = &[
    None,
    Some(LastFile::File {
        min: 4,
        max: 4,
        sum: LAST_SUM,
    }),
    Some(LastFile::File {
        min: 4,
        max: 4,
        sum: 1,
    }),
    Some(LastFile::File {
        min: 3,
        max: 4,
        sum: 1,
    }),
    Some(LastFile::Unknown),
];

/// What the store says of its last file, and what followers are owed that say something of theirs.
fn print_said(rt: HostRuntime, store: &mut MemStore) -> io::Result<()> {
    println!(rt; "the last of four files: {:?}", store.last_file())?;
    for said in SAID {
        let doubted = store.doubts(*said).unwrap_or(false);
        let answer = store.answer(FOURTH, doubted);
        println!(rt; "  {said:?}: {answer:?}")?;
    }
    Ok(())
}

/// The same of the log of four files.
pub fn print_last(rt: HostRuntime) -> io::Result<()> {
    let store = made(rt.alloc(), Way::Whole, FOUR);
    print_of(rt, store, "no log of four", |store| print_said(rt, store))
}

/// A database is dropped, and written again.
const DROPS: &[(&str, &[Step])] = &[
    ("never written", &[]),
    ("dropped", &[COMMIT, Step::Drop]),
    ("written again", &[COMMIT, Step::Drop, COMMIT]),
];

fn print_drop(rt: HostRuntime, title: &str, steps: &[Step]) -> io::Result<()> {
    println!(rt; "{title}")?;
    let store = made(rt.alloc(), Way::Whole, steps);
    print_of(
        rt,
        store,
        "  no store",
        |store| print_owed(rt, store, AROUND),
    )
}

pub fn print_drops(rt: HostRuntime) -> io::Result<()> {
    for (title, steps) in DROPS {
        print_drop(rt, *title, *steps)?;
    }
    Ok(())
}
