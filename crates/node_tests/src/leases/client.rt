//! What a node is asked, and what is told of its answers.

use byte_locks::LockId;
use fuse_msgs::{LockWish, Op, Request};
use halt_forward::{HaltFault, HaltPass};
use lf_base::{Bytes, Pos, Text};
use node_core::{Answer, Ask, LeaseNews, Refusal};
use std::alloc::Global;
use std::process::Abort;

/// What the client, the lease job or another node does.
#[derive(Clone, Copy)]
pub enum Deed {
    Asked,
    Granted(u64),
    Lost,
    Primary(&'static str),
    /// A follower at no position asks what it is owed.
    Hello,
    /// A frame of bytes that are no file.
    Frame,
    Where,
    /// The database file is opened, by the first handle.
    Open,
    /// EXCLUSIVE is locked, or unlocked.
    Exclusive,
    Unlock,
    /// The journal is made, by the second handle, and its header written.
    CreateJournal,
    Header,
    /// The first page is written, full of this byte.
    Page(u8),
    /// The journal is unlinked, which commits.
    Unlink,
    /// Shared memory is made, by the first handle, and WRITE locked.
    CreateShm,
    WriteLock,
    /// The log is made, by the second handle.
    CreateWal,
    /// Its header is written, and a frame of page 1 that commits it.
    Frames,
    /// The primary's name is looked up.
    LookUp,
    /// RESERVED is locked for writing, or for reading, or waited for, or unlocked.
    Reserved,
    ReservedToRead,
    ReservedInTime,
    Unreserved,
    /// WRITE is unlocked.
    WriteUnlock,
    /// The database file is unlinked.
    UnlinkDatabase,
    /// The node of this number wants a write permit.
    HaltAsk(u64),
    /// The permit of this number is given back.
    HaltBack(u64),
    /// A permit of this number came, with its end.
    HaltGot(u64, u64),
    /// The permit of this number is gone.
    HaltLost(u64),
    /// The primary answered the commit that was sent.
    Forwarded(bool),
    /// The client's session ends.
    End,
}

/// What is told of an answer.
#[derive(Clone, Copy, Debug, PartialEq, Eq)]
pub enum Told {
    Done,
    Quiet,
    Refuse(u32),
    At(u64),
    Level,
    Item,
    NotPrimary,
    NotReplica,
    /// A permit of this number, with its end.
    Pass(u64, u64),
    /// A commit is to be sent, under the permit of this number.
    Send(u64),
    Held(LockId),
    HaltHeld(u64, u64),
    HaltGone(u64),
    HaltLimit,
    Refused,
    Other,
}

/// The nodes of the folder and of the files.
const FOLDER: u64 = 1;

const DATABASE: u64 = 2;

const JOURNAL: u64 = 3;

const WAL: u64 = 4;

const SHM: u64 = 5;

/// The bytes of the locks SHARED and WRITE.
const SHARED: (u64, u64) = (0x4000_0002, 0x4000_01ff);

const WRITE: (u64, u64) = (120, 120);

/// The byte of RESERVED.
const RESERVED: (u64, u64) = (0x4000_0001, 0x4000_0001);

/// The header of a journal over pages of 512 bytes.
const HEADER: [u8; 28] = [
    0xd9, 0xd5, 0x05, 0xf9, 0x20, 0xa1, 0x63, 0xd7, 0, 0, 0, 0, 0, 0, 0, 7, 0, 0, 0, 0, 0, 0, 2, 0,
    0, 0, 2, 0,
];

/// The header of a log over pages of 4,096 bytes, and the head of a frame of page 1 that commits 1 page of
/// zeros. The sums were computed by the rule of the file format.
const HEADS: [u8; 56] = [
    0x37, 0x7f, 0x06, 0x82, 0x00, 0x2d, 0xe2, 0x18, 0x00, 0x00, 0x10, 0x00, 0x00, 0x00, 0x00, 0x00,
    0x11, 0x22, 0x33, 0x44, 0x55, 0x66, 0x77, 0x88, 0x19, 0x1a, 0x25, 0x24, 0x59, 0x79, 0x63, 0x1e,
    0x00, 0x00, 0x00, 0x01, 0x00, 0x00, 0x00, 0x01, 0x11, 0x22, 0x33, 0x44, 0x55, 0x66, 0x77, 0x88,
    0xee, 0x2b, 0x95, 0x64, 0xca, 0xae, 0xa5, 0x16,
];

fn bytes<R: Copy + Abort>(rt: R, alloc: Global, text: &[u8]) -> Bytes {
    Bytes::of(Vec::from_slice(alloc, text).expect(&rt, "memory"))
}

fn page<R: Copy + Abort>(rt: R, alloc: Global, byte: u8) -> Bytes {
    Bytes::of(vec![in alloc; byte; 512].expect(&rt, "memory"))
}

fn frames<R: Copy + Abort>(rt: R, alloc: Global) -> Bytes {
    let mut contents = Vec::new(alloc);
    contents.extend_from_slice(&HEADS).expect(&rt, "memory");
    contents.resize(56 + 4096, 0).expect(&rt, "memory");
    Bytes::of(contents)
}

fn file(now: u64, about: u64, op: Op) -> Ask {
    let request = Request {
        unique: 1,
        node: about,
        pid: 1,
        op,
    };
    Ask::File { now, request }
}

fn create<R: Copy + Abort>(rt: R, alloc: Global, now: u64, name: &[u8]) -> Ask {
    let name = bytes(rt, alloc, name);
    file(now, FOLDER, Op::Create { name })
}

fn lock(now: u64, about: u64, range: (u64, u64), kind: LockWish) -> Ask {
    let (start, end) = range;
    let op = Op::Setlk {
        fh: 1,
        owner: 1,
        start,
        end,
        kind,
    };
    file(now, about, op)
}

fn write(now: u64, about: u64, fh: u64, bytes: Bytes) -> Ask {
    let op = Op::Write {
        fh,
        at: 0,
        owner: Some(1),
        bytes,
    };
    file(now, about, op)
}

fn news<R: Copy + Abort>(rt: R, alloc: Global, deed: Deed) -> Option<LeaseNews> {
    match deed {
        Deed::Asked => Some(LeaseNews::Asked),
        Deed::Granted(ttl) => Some(LeaseNews::Granted { term: 1, ttl }),
        Deed::Lost => Some(LeaseNews::Lost),
        Deed::Primary(host) => {
            let host = Text::of(alloc, host).expect(&rt, "memory");
            Some(LeaseNews::Primary { host })
        }
        _ => None,
    }
}

/// What is asked of write permits.
fn of_permits(now: u64, deed: Deed) -> Option<Ask> {
    match deed {
        Deed::HaltAsk(node) => Some(Ask::HaltAsk { now, node }),
        Deed::HaltBack(number) => Some(Ask::HaltBack { now, number }),
        Deed::HaltGot(number, until) => Some(Ask::HaltGot {
            now,
            pass: HaltPass { number, until },
        }),
        Deed::HaltLost(number) => Some(Ask::HaltLost { number }),
        Deed::Forwarded(ok) => Some(Ask::Forwarded { ok }),
        _ => None,
    }
}

fn unlink<R: Copy + Abort>(rt: R, alloc: Global, now: u64, name: &[u8]) -> Ask {
    let name = bytes(rt, alloc, name);
    file(now, FOLDER, Op::Unlink { name })
}

/// RESERVED is waited for.
fn reserved_in_time(now: u64) -> Ask {
    let (start, end) = RESERVED;
    let op = Op::Setlkw {
        fh: 1,
        owner: 1,
        start,
        end,
        kind: LockWish::Write,
    };
    file(now, DATABASE, op)
}

/// What the client does to its files, or what other nodes ask.
fn request<R: Copy + Abort>(rt: R, alloc: Global, now: u64, deed: Deed) -> Ask {
    match deed {
        Deed::Hello => Ask::Hello {
            now,
            pos: Pos { txid: 0, sum: 0 },
            last: None,
        },
        Deed::Frame => Ask::Frame {
            now,
            bytes: bytes(rt, alloc, b"no file"),
        },
        Deed::End => Ask::EndSession,
        Deed::Open => file(now, DATABASE, Op::Open),
        Deed::Exclusive => lock(now, DATABASE, SHARED, LockWish::Write),
        Deed::Unlock => lock(now, DATABASE, SHARED, LockWish::Unlock),
        Deed::CreateJournal => create(rt, alloc, now, b"app-journal"),
        Deed::Header => write(now, JOURNAL, 2, bytes(rt, alloc, &HEADER)),
        Deed::Page(byte) => write(now, DATABASE, 1, page(rt, alloc, byte)),
        Deed::Unlink => unlink(rt, alloc, now, b"app-journal"),
        Deed::UnlinkDatabase => unlink(rt, alloc, now, b"app"),
        Deed::Reserved => lock(now, DATABASE, RESERVED, LockWish::Write),
        Deed::ReservedToRead => lock(now, DATABASE, RESERVED, LockWish::Read),
        Deed::ReservedInTime => reserved_in_time(now),
        Deed::Unreserved => lock(now, DATABASE, RESERVED, LockWish::Unlock),
        Deed::WriteUnlock => lock(now, SHM, WRITE, LockWish::Unlock),
        Deed::CreateShm => create(rt, alloc, now, b"app-shm"),
        Deed::WriteLock => lock(now, SHM, WRITE, LockWish::Write),
        Deed::CreateWal => create(rt, alloc, now, b"app-wal"),
        Deed::Frames => write(now, WAL, 2, frames(rt, alloc)),
        Deed::LookUp => file(
            now,
            FOLDER,
            Op::Lookup {
                name: bytes(rt, alloc, b".primary"),
            },
        ),
        _ => Ask::Where,
    }
}

/// What the node is asked.
pub fn ask_of<R: Copy + Abort>(rt: R, alloc: Global, now: u64, deed: Deed) -> Ask {
    match news(rt, alloc, deed) {
        Some(news) => Ask::Lease { now, news },
        None => match of_permits(now, deed) {
            Some(ask) => ask,
            None => request(rt, alloc, now, deed),
        },
    }
}

/// Why a permit is not given out or not taken back.
fn told_of_permit(fault: HaltFault) -> Told {
    match fault {
        HaltFault::HaltHeld { number, until } => Told::HaltHeld(number, until),
        HaltFault::HaltGone { number } => Told::HaltGone(number),
        HaltFault::Limit => Told::HaltLimit,
        HaltFault::Behind { .. } => Told::Other,
    }
}

/// What is told of an answer.
pub fn told_of(answer: &Answer) -> Told {
    match answer {
        Answer::Done(_) => Told::Done,
        Answer::Quiet => Told::Quiet,
        Answer::Refuse(number) => Told::Refuse(number.0),
        Answer::At(here) => Told::At(here.pos.txid),
        Answer::Level(_) => Told::Level,
        Answer::Item { .. } => Told::Item,
        Answer::Refused(Refusal::NotPrimary) => Told::NotPrimary,
        Answer::Refused(Refusal::NotReplica) => Told::NotReplica,
        Answer::Pass(pass) => Told::Pass(pass.number, pass.until),
        Answer::Send { number, .. } => Told::Send(*number),
        Answer::Held(lock) => Told::Held(*lock),
        Answer::Refused(Refusal::Halt(fault)) => told_of_permit(*fault),
        Answer::Refused(_) => Told::Refused,
        _ => Told::Other,
    }
}
