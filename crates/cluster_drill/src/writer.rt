//! A client of the primary: what it asks of its files for a transaction.
ghost use Rattle.std.specs.Prelude.{◌≡◌, OnOk};
ghost use Rattle.cluster_drill.specs.Nodes.{place};

use crate::draws::Draws;
use crate::nodes::{MemNode, NOW, ask, is_at};
use crate::pages::{PAGE_SIZE, PAGES, RUN, blank_run, first_page, full_page};
use fuse_msgs::{LockWish, Op, Request};
use lf_base::{Bytes, NoMemory};
use node_core::Ask;
use std::alloc::Global;

/// The nodes of the folder, of the database file and of the journal.
const FOLDER: u64 = 1;

const DATABASE: u64 = 2;

const JOURNAL: u64 = 3;

/// The caller that commits.
const WRITER: u64 = 1;

/// Its handles: on the database file, and on the journal.
const DATABASE_HANDLE: u64 = 1;

const JOURNAL_HANDLE: u64 = 2;

/// The first and the last byte of the lock SHARED.
const SHARED: (u64, u64) = (0x4000_0002, 0x4000_01ff);

/// The header of a journal over pages of 4,096 bytes.
const HEADER: [u8; 28] = [
    0xd9, 0xd5, 0x05, 0xf9, 0x20, 0xa1, 0x63, 0xd7, 0, 0, 0, 0, 0, 0, 0, 7, 0, 0, 0, 64, 0, 0, 2,
    0, 0, 0, 0x10, 0,
];

/// The writer asks something of a file.
fn does(primary: &mut MemNode, about: u64, op: Op) {
    let request = Request {
        unique: 1,
        node: about,
        pid: 1,
        op,
    };
    ask(primary, WRITER, &Ask::File { now: NOW, request });
}

fn writes(primary: &mut MemNode, about: u64, fh: u64, at: u64, bytes: Bytes) {
    does(
        primary,
        about,
        Op::Write {
            fh,
            at,
            owner: Some(1),
            bytes,
        },
    );
}

/// It opens the database file and locks it for writing.
fn locks(primary: &mut MemNode) {
    does(primary, DATABASE, Op::Open);
    does(
        primary,
        DATABASE,
        Op::Setlk {
            fh: DATABASE_HANDLE,
            owner: 1,
            start: SHARED.0,
            end: SHARED.1,
            kind: LockWish::Write,
        },
    );
}

/// It begins a journal.
fn begins_journal(alloc: Global, primary: &mut MemNode) -> Result<(), NoMemory> {
    let name = Bytes::of(Vec::from_slice(alloc, b"app-journal")?);
    does(primary, FOLDER, Op::Create { name });
    let header = Bytes::of(Vec::from_slice(alloc, &HEADER)?);
    writes(primary, JOURNAL, JOURNAL_HANDLE, 0, header);
    Ok(())
}

/// It writes pages of the database, from this one on.
fn writes_pages(primary: &mut MemNode, number: u64, pages: Bytes) {
    let at = number.saturating_sub(1).saturating_mul(PAGE_SIZE as u64);
    writes(primary, DATABASE, DATABASE_HANDLE, at, pages);
}

/// It writes all pages, full of zeros.
fn writes_all(alloc: Global, primary: &mut MemNode) -> Result<(), NoMemory> {
    for run in 0..PAGES / RUN {
        writes_pages(primary, run * RUN + 1, blank_run(alloc)?);
    }
    Ok(())
}

/// It fills a page behind the first. The draws say which one, and with what.
fn fills_page(alloc: Global, primary: &mut MemNode, draws: &mut Draws) -> Result<(), NoMemory> {
    let number = draws.below(PAGES - 1) + 2;
    let byte = draws.below(256) as u8;
    writes_pages(primary, number, full_page(alloc, byte)?);
    Ok(())
}

/// It writes the pages of a transaction.
fn writes_transaction(
    alloc: Global,
    primary: &mut MemNode,
    draws: &mut Draws,
    txid: u32,
) -> Result<(), NoMemory> {
    if txid == 1 {
        writes_all(alloc, primary)?;
    }
    writes_pages(primary, 1, first_page(alloc, txid)?);
    for _ in 0..draws.below(8) {
        fills_page(alloc, primary, draws)?;
    }
    Ok(())
}

/// It unlinks the journal, which commits, and ends its session.
fn ends(alloc: Global, primary: &mut MemNode) -> Result<(), NoMemory> {
    let name = Bytes::of(Vec::from_slice(alloc, b"app-journal")?);
    does(primary, FOLDER, Op::Unlink { name });
    ask(primary, WRITER, &Ask::EndSession);
    Ok(())
}

/// A client commits the transaction of a number. It is as want of memory where the primary is not at
/// that number then.
pub(crate) fn commit(
    alloc: Global,
    primary: &mut MemNode,
    draws: &mut Draws,
    txid: u32,
) -> Result<(), NoMemory>
    ensures { OnOk result ((place primary.new).txid ≡ txid) }
{
    locks(primary);
    begins_journal(alloc, primary)?;
    writes_transaction(alloc, primary, draws, txid)?;
    ends(alloc, primary)?;
    if !is_at(primary, u64::from(txid)) {
        return Err(NoMemory);
    }
    Ok(())
}
