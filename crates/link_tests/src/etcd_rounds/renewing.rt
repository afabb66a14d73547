//! A term renewed, and one given back.
use super::{
    Asked, FIRST, GONE, GRANTED, HELD, Heard, IDLE, KEEP, LEASE, Meets, OTHER_KEY, OWN_KEY, RANGE,
    REVOKE, Row, Sent, are_rounds,
};
use etcd_lease::Held;
use std::net::{TcpListener, TcpStream};

const HOLDING: Row = Row {
    held: Some(HELD),
    asked: Asked::Renew(2),
    after: Some(HELD),
    ..IDLE
};

/// The key that is held, at another revision: it was removed, and put again by the same lease.
const AGAIN: &str =
    ",\"kvs\":[{\"key\":\"bGl0ZWZzL2RiL3ByaW1hcnk=\",\"create_revision\":\"5\",\"mod_revision\":\"5\",\"version\":\"1\",\
    \"value\":\"\",\"lease\":\"2324035681771875335\"}],\"count\":\"1\"";

/// The same at its revision, by another lease: it was put over.
const OVER: &str =
    ",\"kvs\":[{\"key\":\"bGl0ZWZzL2RiL3ByaW1hcnk=\",\"create_revision\":\"2\",\"mod_revision\":\"6\",\"version\":\"2\",\
    \"value\":\"\",\"lease\":\"2324035681771875339\"}],\"count\":\"1\"";

/// By no lease.
const BARE: &str =
    ",\"kvs\":[{\"key\":\"bGl0ZWZzL2RiL3ByaW1hcnk=\",\"create_revision\":\"2\",\"mod_revision\":\"6\",\"version\":\"2\",\
    \"value\":\"\"}],\"count\":\"1\"";

const LASTS: &[Row] = &[
    Row {
        name: "ten seconds",
        meets: &[Meets::Lasts(GRANTED), Meets::Says(OWN_KEY)],
        sent: &[KEEP, RANGE],
        heard: Heard::Granted {
            term: 2,
            ttl: 9_000,
        },
        ..HOLDING
    },
    Row {
        name: "seven seconds",
        meets: &[
            Meets::Lasts(",\"ID\":\"2324035681771875335\",\"TTL\":\"7\""),
            Meets::Says(OWN_KEY),
        ],
        sent: &[KEEP, RANGE],
        heard: Heard::Granted {
            term: 2,
            ttl: 6_000,
        },
        ..HOLDING
    },
    Row {
        name: "one second",
        meets: &[
            Meets::Lasts(",\"ID\":\"2324035681771875335\",\"TTL\":\"1\""),
            Meets::Says(OWN_KEY),
        ],
        sent: &[KEEP, RANGE],
        heard: Heard::Granted { term: 2, ttl: 0 },
        ..HOLDING
    },
    Row {
        name: "before its time",
        held: Some(LATE),
        meets: &[Meets::Lasts(GRANTED), Meets::Says(OWN_KEY)],
        sent: &[KEEP, RANGE],
        heard: Heard::Granted {
            term: 2,
            ttl: 9_000,
        },
        after: Some(LATE),
        ..HOLDING
    },
    Row {
        name: "by two endpoints",
        meets: &[
            Meets::Refused,
            Meets::Lasts(GRANTED),
            Meets::Refused,
            Meets::Says(OWN_KEY),
        ],
        sent: &[
            Sent {
                host: "b:2",
                ..KEEP
            },
            Sent {
                host: "c:3",
                ..RANGE
            },
        ],
        heard: Heard::Granted {
            term: 2,
            ttl: 9_000,
        },
        order: " c:3 a:1 b:2",
        passed: " a:1 b:2",
        ..HOLDING
    },
];

/// A term that is renewed was one before: its time has come.
const LATE: Held = Held {
    from: 18_446_744_073_709_551_615,
    ..HELD
};

const LOSING: Row = Row {
    heard: Heard::Lost,
    after: None,
    ..HOLDING
};

const LOST: &[Row] = &[
    Row {
        name: "the lease is gone",
        meets: &[Meets::Lasts(GONE)],
        sent: &[KEEP],
        ..LOSING
    },
    Row {
        name: "the key is gone",
        meets: &[Meets::Lasts(GRANTED), Meets::Says("")],
        sent: &[KEEP, RANGE],
        ..LOSING
    },
    Row {
        name: "another's",
        meets: &[Meets::Lasts(GRANTED), Meets::Says(OTHER_KEY)],
        sent: &[KEEP, RANGE],
        ..LOSING
    },
    Row {
        name: "put again",
        meets: &[Meets::Lasts(GRANTED), Meets::Says(AGAIN)],
        sent: &[KEEP, RANGE],
        ..LOSING
    },
    Row {
        name: "put over",
        meets: &[Meets::Lasts(GRANTED), Meets::Says(OVER)],
        sent: &[KEEP, RANGE],
        ..LOSING
    },
    Row {
        name: "put over by no lease",
        meets: &[Meets::Lasts(GRANTED), Meets::Says(BARE)],
        sent: &[KEEP, RANGE],
        ..LOSING
    },
    Row {
        name: "no key is held",
        held: None,
        ..LOSING
    },
    Row {
        name: "another term",
        asked: Asked::Renew(3),
        after: Some(HELD),
        ..LOSING
    },
];

/// Nothing is known, and the key is held on.
const UNKNOWN: &[Row] = &[
    Row {
        name: "no endpoint answers",
        meets: &[Meets::Refused, Meets::Text(""), Meets::Fails(0)],
        sent: &[Sent {
            host: "b:2",
            ..KEEP
        }],
        passed: FIRST,
        ..HOLDING
    },
    Row {
        name: "no endpoint shows the key",
        meets: &[
            Meets::Lasts(GRANTED),
            Meets::Refused,
            Meets::Text(""),
            Meets::Fails(0),
        ],
        sent: &[
            KEEP,
            Sent {
                host: "b:2",
                ..RANGE
            },
        ],
        passed: FIRST,
        ..HOLDING
    },
];

const GIVING: Row = Row {
    held: Some(HELD),
    asked: Asked::Release(2),
    after: None,
    ..IDLE
};

const RELEASED: &[Row] = &[
    Row {
        name: "revoked",
        meets: &[Meets::Says("")],
        sent: &[REVOKE],
        ..GIVING
    },
    Row {
        name: "revoked by the second",
        meets: &[
            Meets::Status("503 Service Unavailable", "{}"),
            Meets::Says(""),
        ],
        sent: &[
            REVOKE,
            Sent {
                host: "b:2",
                ..REVOKE
            },
        ],
        order: " b:2 c:3 a:1",
        passed: " a:1",
        ..GIVING
    },
    Row {
        name: "no endpoint answers",
        meets: &[Meets::Refused, Meets::Refused, Meets::Refused],
        passed: FIRST,
        ..GIVING
    },
    Row {
        name: "another term",
        asked: Asked::Release(LEASE),
        after: Some(HELD),
        ..GIVING
    },
    Row {
        name: "no key is held",
        held: None,
        ..GIVING
    },
];

#[test]
fn terms_renewed(rt: HostRuntime) {
    let _named: Option<(TcpListener, TcpStream)> = None;
    are_rounds(rt, rt.alloc(), LASTS);
}

#[test]
fn terms_lost(rt: HostRuntime) {
    let _named: Option<(TcpListener, TcpStream)> = None;
    are_rounds(rt, rt.alloc(), LOST);
}

#[test]
fn terms_of_which_nothing_is_known(rt: HostRuntime) {
    let _named: Option<(TcpListener, TcpStream)> = None;
    are_rounds(rt, rt.alloc(), UNKNOWN);
}

#[test]
fn terms_given_back(rt: HostRuntime) {
    let _named: Option<(TcpListener, TcpStream)> = None;
    are_rounds(rt, rt.alloc(), RELEASED);
}
