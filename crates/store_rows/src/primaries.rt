//! Two stores with the same number and other pages: the old one takes the new one's snapshot, and then
//! its next file.
ghost use Rattle.std.specs.Prelude.{IfSome};
ghost use Rattle.ltx_codec.specs.Format.{IsFile};

use crate::samples::{FILLED_TO_6, Sample, ZEROS_TO_8, file_in};
use crate::steps::{Step, Taking, Way, Went, does, takes_file};
use crate::stores::{MemStore, made, print_of};
use ltx_codec::Ltx;
use snapshot::make;
use std::alloc::Global;
use std::io;
use txn_log::Answer;

/// The steps to transaction 5 of the store that was a primary before, and of the one that is.
const OLD: &[Step] = &[
    Step::Apply(Sample {
        max: 4,
        ..ZEROS_TO_8
    }),
    Step::Commit(2, &[]),
];

const NEW: &[Step] = &[
    Step::Apply(Sample {
        max: 4,
        ..FILLED_TO_6
    }),
    Step::Commit(2, &[(2, 6)]),
];

/// Appends the file that a store owes, if it owes one.
fn give(store: &mut MemStore, owed: Answer, out: &mut Vec<u8>) -> bool {
    match owed {
        Answer::Snapshot if store.pos().txid > 0 => make(store, out).is_ok(),
        Answer::Files { first } if first < store.entries.len() => store.file(first, out).is_ok(),
        _ => false,
    }
}

/// The file that a store owes.
fn owed_file(alloc: Global, store: &mut MemStore, owed: Answer) -> Option<Ltx>
    ensures { IfSome result IsFile }
{
    let mut encoding = Vec::new(alloc);
    if give(store, owed, &mut encoding) {
        file_in(alloc, encoding.as_slice())
    } else {
        None
    }
}

/// The old store takes a file of the new one: one from transaction 1 on is installed.
fn take(rt: HostRuntime, old: &mut MemStore, file: &Ltx) -> io::Result<()>
    requires { IsFile file.now }
{
    let first = file.header.min;
    println!(rt; "  file {first} to {}", file.header.max)?;
    let taking = if first == 1 {
        Taking::Install
    } else {
        Taking::Apply
    };
    match takes_file(rt.alloc(), old, taking, file) {
        Went::Done => Ok(()),
        _ => println!(rt; "  not taken"),
    }
}

/// Prints where the old store is, and what it is owed there, and it takes that.
fn follow(rt: HostRuntime, old: &mut MemStore, new: &mut MemStore) -> io::Result<()> {
    let stands = old.pos();
    let owed = new.answer(stands, false);
    println!(rt; "  old at ({}, {:x}): {owed:?}", stands.txid, stands.sum)?;
    match owed_file(rt.alloc(), new, owed) {
        Some(file) => {
            let taken = take(rt, old, &file);
            drop(file);
            taken
        }
        None => Ok(()),
    }
}

/// The old store follows, also once the new one commits its transaction 6.
fn print_following(rt: HostRuntime, old: &mut MemStore, new: &mut MemStore) -> io::Result<()> {
    println!(rt; "an old primary at 5 and a new one")?;
    follow(rt, old, new)?;
    follow(rt, old, new)?;
    does(rt.alloc(), new, Way::Whole, &Step::Commit(2, &[(1, 9)]));
    follow(rt, old, new)?;
    follow(rt, old, new)
}

fn print_with(rt: HostRuntime, old: &mut MemStore) -> io::Result<()> {
    let new = made(rt.alloc(), Way::Whole, NEW);
    print_of(rt, new, "no new store", |new| print_following(rt, old, new))
}

/// An old primary follows a new one.
pub fn print_primaries(rt: HostRuntime) -> io::Result<()> {
    let old = made(rt.alloc(), Way::Whole, OLD);
    print_of(rt, old, "no old store", |old| print_with(rt, old))
}
