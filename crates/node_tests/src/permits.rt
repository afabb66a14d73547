//! A table of write permits at one node: what it is asked, at which moment, and what it answers. A permit
//! lasts for 1,000 milliseconds.
use crate::leases::client::{Deed, Told};
use crate::leases::node::{close, open};
use crate::leases::{Turn, play};
use byte_locks::LockId;

/// One permit is out at a time, whoever wants it. It ends when it is given back, or at its end.
const ONE: &[Turn] = &[
    (1_000, Deed::HaltAsk(2), Told::Pass(1, 2_000)),
    (1_001, Deed::HaltAsk(3), Told::HaltHeld(1, 2_000)),
    (1_001, Deed::HaltAsk(2), Told::HaltHeld(1, 2_000)),
    (1_002, Deed::HaltBack(2), Told::HaltGone(2)),
    (1_002, Deed::HaltBack(1), Told::Quiet),
    (1_003, Deed::HaltBack(1), Told::HaltGone(1)),
    (1_003, Deed::HaltAsk(3), Told::Pass(2, 2_003)),
    (2_002, Deed::HaltAsk(2), Told::HaltHeld(2, 2_003)),
    (2_003, Deed::HaltBack(2), Told::HaltGone(2)),
    (2_003, Deed::HaltAsk(2), Told::Pass(3, 3_003)),
    (5, Deed::HaltAsk(3), Told::HaltHeld(3, 3_003)),
    (3_003, Deed::HaltBack(3), Told::HaltGone(3)),
];

/// An end past the last moment is none.
const LIMIT: &[Turn] = &[
    (u64::MAX - 1_000, Deed::HaltAsk(2), Told::Pass(1, u64::MAX)),
    (u64::MAX - 1_000, Deed::HaltBack(1), Told::Quiet),
    (u64::MAX - 999, Deed::HaltAsk(2), Told::HaltLimit),
];

/// No lock of a writer is granted while a permit is out, and every other lock is.
const LOCKS: &[Turn] = &[
    (100, Deed::Open, Told::Done),
    (1_000, Deed::HaltAsk(2), Told::Pass(1, 2_000)),
    (1_001, Deed::Reserved, Told::Refuse(11)),
    (1_002, Deed::ReservedToRead, Told::Refuse(11)),
    (1_003, Deed::ReservedInTime, Told::Refuse(11)),
    (1_004, Deed::Unreserved, Told::Done),
    (1_005, Deed::Exclusive, Told::Done),
    (1_006, Deed::Unlock, Told::Done),
    (2_000, Deed::Reserved, Told::Done),
];

const LOG_LOCKS: &[Turn] = &[
    (100, Deed::CreateShm, Told::Done),
    (1_000, Deed::HaltAsk(2), Told::Pass(1, 2_000)),
    (1_001, Deed::WriteLock, Told::Refuse(11)),
    (1_002, Deed::HaltBack(1), Told::Quiet),
    (1_003, Deed::WriteLock, Told::Done),
    (1_004, Deed::HaltAsk(2), Told::Held(LockId::Write)),
    (1_005, Deed::WriteUnlock, Told::Done),
    (1_006, Deed::HaltAsk(2), Told::Pass(2, 2_006)),
];

/// No permit is given out while somebody writes.
const HELD: &[Turn] = &[
    (100, Deed::Open, Told::Done),
    (101, Deed::Reserved, Told::Done),
    (102, Deed::HaltAsk(2), Told::Held(LockId::Reserved)),
    (103, Deed::Unreserved, Told::Done),
    (104, Deed::HaltAsk(2), Told::Pass(1, 1_104)),
];

/// A page is written.
const WRITTEN: &[Turn] = &[
    (100, Deed::Open, Told::Done),
    (101, Deed::Exclusive, Told::Done),
    (102, Deed::CreateJournal, Told::Done),
    (103, Deed::Header, Told::Done),
    (104, Deed::Page(7), Told::Done),
];

/// Nothing is committed while the permit is out. What was to be committed is there still.
const COMMIT: &[Turn] = &[
    (105, Deed::HaltAsk(2), Told::Pass(1, 1_105)),
    (106, Deed::Unlink, Told::Refuse(11)),
    (107, Deed::Where, Told::At(0)),
    (108, Deed::HaltBack(1), Told::Quiet),
    (109, Deed::Unlink, Told::Done),
    (110, Deed::Where, Told::At(1)),
];

/// Nor is the database dropped.
const DROP: &[Turn] = &[
    (105, Deed::Unlink, Told::Done),
    (106, Deed::Unlock, Told::Done),
    (107, Deed::HaltAsk(2), Told::Pass(1, 1_107)),
    (108, Deed::UnlinkDatabase, Told::Refuse(11)),
    (109, Deed::Where, Told::At(1)),
    (1_107, Deed::UnlinkDatabase, Told::Done),
    (1_108, Deed::Where, Told::At(0)),
];

/// A replica gives none out.
const REPLICA: &[Turn] = &[
    (100, Deed::HaltAsk(2), Told::NotPrimary),
    (100, Deed::HaltBack(1), Told::NotPrimary),
    (100, Deed::HaltLost(1), Told::Quiet),
    (100, Deed::UnlinkDatabase, Told::Refuse(30)),
];

const GOT: &[Turn] = &[(50, Deed::HaltGot(7, 200), Told::Quiet)];

/// A halted node follows as a replica does. It drops no database.
const HALTED: &[Turn] = &[
    (105, Deed::Hello, Told::NotPrimary),
    (106, Deed::Frame, Told::Refused),
    (107, Deed::HaltAsk(2), Told::NotPrimary),
    (108, Deed::HaltBack(7), Told::NotPrimary),
    (109, Deed::UnlinkDatabase, Told::Refuse(1)),
    (110, Deed::Page(8), Told::Done),
];

/// Its commit is sent, and the request waits: meanwhile nothing is committed, and nothing else is
/// written.
const SENT: &[Turn] = &[
    (111, Deed::Unlink, Told::Send(7)),
    (112, Deed::Where, Told::At(0)),
    (113, Deed::Page(9), Told::Refuse(11)),
    (114, Deed::Unlink, Told::Refuse(11)),
];

/// It is committed at the primary, and then here, once.
const ACCEPTED: &[Turn] = &[
    (115, Deed::Forwarded(true), Told::Done),
    (116, Deed::Where, Told::At(1)),
    (117, Deed::Forwarded(true), Told::Refuse(5)),
    (118, Deed::Where, Told::At(1)),
];

/// So it is where the permit ended before the reply came.
const ACCEPTED_LATE: &[Turn] = &[
    (201, Deed::Page(9), Told::Refuse(30)),
    (202, Deed::Forwarded(true), Told::Done),
    (203, Deed::Where, Told::At(1)),
];

/// It is not committed: the request changed nothing, and what was written is there still.
const GIVEN_UP: &[Turn] = &[
    (115, Deed::Forwarded(false), Told::Refuse(5)),
    (116, Deed::Where, Told::At(0)),
    (117, Deed::Page(9), Told::Done),
    (118, Deed::Unlink, Told::Send(7)),
];

/// Its session ends before the reply comes.
const LEFT: &[Turn] = &[
    (115, Deed::End, Told::Quiet),
    (116, Deed::Forwarded(true), Told::Refuse(5)),
    (117, Deed::Where, Told::At(0)),
];

/// At the end of its permit the node is a replica, and the owner of uncommitted pages is refused with 5
/// until it unlocks, whatever permit comes then.
const ENDS: &[Turn] = &[
    (199, Deed::Page(8), Told::Done),
    (200, Deed::Page(9), Told::Refuse(30)),
    (201, Deed::HaltGot(8, 300), Told::Quiet),
    (202, Deed::Page(9), Told::Refuse(5)),
    (203, Deed::Unlock, Told::Done),
    (204, Deed::Exclusive, Told::Done),
    (205, Deed::Page(9), Told::Done),
];

/// So it is when the permit is gone, but not that of another number. A second permit changes nothing.
const GONE: &[Turn] = &[
    (105, Deed::HaltLost(8), Told::Quiet),
    (106, Deed::Page(8), Told::Done),
    (107, Deed::HaltGot(8, 300), Told::Quiet),
    (108, Deed::HaltLost(8), Told::Quiet),
    (109, Deed::Page(9), Told::Done),
    (110, Deed::HaltLost(7), Told::Quiet),
    (111, Deed::Page(10), Told::Refuse(30)),
    (111, Deed::Unlink, Told::Refuse(30)),
];

/// A permit that has ended when it comes is none.
const LATE: &[Turn] = &[
    (200, Deed::HaltGot(7, 200), Told::Quiet),
    (200, Deed::UnlinkDatabase, Told::Refuse(30)),
];

/// Behind a lease no permit comes back.
const LEASED: &[Turn] = &[
    (60, Deed::Asked, Told::Quiet),
    (61, Deed::Granted(10), Told::Quiet),
    (62, Deed::Hello, Told::Level),
    (70, Deed::Hello, Told::NotPrimary),
    (71, Deed::UnlinkDatabase, Told::Refuse(30)),
];

/// A primary takes none.
const NEEDLESS: &[Turn] = &[
    (100, Deed::HaltGot(7, 200), Told::Quiet),
    (101, Deed::Lost, Told::Quiet),
    (102, Deed::UnlinkDatabase, Told::Refuse(30)),
];

/// Whether the node is primary from the start, and what comes in turn.
const ROWS: &[(bool, &[&[Turn]])] = &[
    (true, &[ONE]),
    (true, &[LIMIT]),
    (true, &[LOCKS]),
    (true, &[LOG_LOCKS]),
    (true, &[HELD]),
    (true, &[WRITTEN, COMMIT]),
    (true, &[WRITTEN, DROP]),
    (false, &[REPLICA]),
    (false, &[GOT, WRITTEN, HALTED]),
    (false, &[GOT, WRITTEN, SENT, ACCEPTED]),
    (false, &[GOT, WRITTEN, SENT, ACCEPTED_LATE]),
    (false, &[GOT, WRITTEN, SENT, GIVEN_UP]),
    (false, &[GOT, WRITTEN, SENT, LEFT]),
    (false, &[GOT, WRITTEN, ENDS]),
    (false, &[GOT, WRITTEN, GONE]),
    (false, &[LATE]),
    (false, &[GOT, LEASED]),
    (true, &[NEEDLESS]),
];

#[test]
fn a_permit_is_given_out_got_and_ends(rt: HostRuntime) {
    for (candidate, parts) in ROWS {
        let mut node = open(rt, rt.alloc(), *candidate);
        for turns in *parts {
            play(rt, rt.alloc(), &mut node, turns);
        }
        close(node);
    }
}
