//! A term asked for: a key that is put, and one that waits for its time.
use super::{
    Asked, GONE, GRANT, GRANTED, HELD, Heard, IDLE, KEEP, LEASE, Meets, NOW, OTHER_KEY, OWN_KEY,
    PUT, RANGE, REVOKE, Row, Sent, are_rounds,
};
use etcd_lease::Held;
use std::net::{TcpListener, TcpStream};

/// The reply to a put, and to one where the key stands.
const DONE: &str =
    ",\"succeeded\":true,\"responses\":[{\"response_put\":{\"header\":{\"revision\":\"2\"}}}]";

const STANDS: &str =
    ",\"responses\":[{\"response_range\":{\"header\":{\"revision\":\"3\"},\"kvs\":[{\"key\":\"bGl0ZWZzL2RiL3ByaW1hcnk=\",\
    \"create_revision\":\"3\",\"mod_revision\":\"3\",\"version\":\"1\",\"value\":\"eyJob3N0IjoiZGIyIiwidGVybSI6MCwidHRsIjo5MDAwLCJ1cmwiOiJodHRwOi8vZGIyOjIwMjAzIn0=\",\
    \"lease\":\"2324035681771875339\"}],\"count\":\"1\"}}]";

/// The key that was put is held, and stands for a lease nine seconds behind the look, the third call.
const TAKEN: Held = Held {
    term: 2,
    lease: LEASE,
    from: NOW + 3 + 9_000,
};

const NEW: Row = Row {
    asked: Asked::Acquire,
    ..IDLE
};

/// No key is held.
const PUTS: &[Row] = &[
    Row {
        name: "put",
        meets: &[
            Meets::Says(GRANTED),
            Meets::Says(DONE),
            Meets::Says(OWN_KEY),
        ],
        sent: &[GRANT, PUT, RANGE],
        after: Some(TAKEN),
        ..NEW
    },
    Row {
        name: "a longer time than was asked for",
        meets: &[
            Meets::Says(",\"ID\":\"2324035681771875335\",\"TTL\":\"15\""),
            Meets::Says(DONE),
            Meets::Says(OWN_KEY),
        ],
        sent: &[GRANT, PUT, RANGE],
        after: Some(Held {
            from: NOW + 3 + 14_000,
            ..TAKEN
        }),
        ..NEW
    },
    Row {
        name: "another has the key",
        meets: &[
            Meets::Says(GRANTED),
            Meets::Says(STANDS),
            Meets::Says(OTHER_KEY),
            Meets::Says(""),
        ],
        sent: &[GRANT, PUT, RANGE, REVOKE],
        ..NEW
    },
    Row {
        name: "another has it, and the lease can't be revoked",
        meets: &[
            Meets::Says(GRANTED),
            Meets::Says(STANDS),
            Meets::Says(OTHER_KEY),
            Meets::Refused,
            Meets::Refused,
            Meets::Refused,
        ],
        sent: &[GRANT, PUT, RANGE],
        passed: " a:1 b:2 c:3",
        ..NEW
    },
    Row {
        name: "the key is gone again",
        meets: &[
            Meets::Says(GRANTED),
            Meets::Says(DONE),
            Meets::Says(""),
            Meets::Says(""),
        ],
        sent: &[GRANT, PUT, RANGE, REVOKE],
        ..NEW
    },
    Row {
        name: "no lease is granted",
        meets: &[Meets::Refused, Meets::Refused, Meets::Refused],
        passed: " a:1 b:2 c:3",
        ..NEW
    },
    Row {
        name: "no look, so the lease is revoked",
        meets: &[
            Meets::Says(GRANTED),
            Meets::Says(DONE),
            Meets::Refused,
            Meets::Refused,
            Meets::Refused,
            Meets::Says(""),
        ],
        sent: &[GRANT, PUT, REVOKE],
        passed: " a:1 b:2 c:3",
        ..NEW
    },
];

/// The reply to a put is lost at one endpoint, and the key stands at the next.
const LOST: &[Row] = &[
    Row {
        name: "the put was done",
        meets: &[
            Meets::Says(GRANTED),
            Meets::Text(""),
            Meets::Says(STANDS),
            Meets::Says(OWN_KEY),
        ],
        sent: &[
            GRANT,
            PUT,
            Sent { host: "b:2", ..PUT },
            Sent {
                host: "b:2",
                ..RANGE
            },
        ],
        after: Some(Held {
            from: NOW + 4 + 9_000,
            ..TAKEN
        }),
        order: " b:2 c:3 a:1",
        passed: " a:1",
        ..NEW
    },
    Row {
        name: "it was not",
        meets: &[
            Meets::Says(GRANTED),
            Meets::Text(""),
            Meets::Says(STANDS),
            Meets::Says(OTHER_KEY),
            Meets::Says(""),
        ],
        sent: &[
            GRANT,
            PUT,
            Sent { host: "b:2", ..PUT },
            Sent {
                host: "b:2",
                ..RANGE
            },
            Sent {
                host: "b:2",
                ..REVOKE
            },
        ],
        order: " b:2 c:3 a:1",
        passed: " a:1",
        ..NEW
    },
    Row {
        name: "no endpoint says",
        meets: &[
            Meets::Says(GRANTED),
            Meets::Text(""),
            Meets::Refused,
            Meets::Refused,
            Meets::Says(OWN_KEY),
        ],
        sent: &[GRANT, PUT, RANGE],
        after: Some(TAKEN),
        passed: " a:1 b:2 c:3",
        ..NEW
    },
];

/// A key that stands for a lease a millisecond behind a round's clock, which has counted two links by then.
const WAITING: Row = Row {
    held: Some(Held {
        from: NOW + 3,
        ..HELD
    }),
    after: Some(Held {
        from: NOW + 3,
        ..HELD
    }),
    ..NEW
};

/// A key is held.
const WAITS: &[Row] = &[
    Row {
        name: "before its time",
        meets: &[Meets::Lasts(GRANTED), Meets::Says(OWN_KEY)],
        sent: &[KEEP, RANGE],
        ..WAITING
    },
    Row {
        name: "at its time",
        held: Some(Held {
            from: NOW + 2,
            ..HELD
        }),
        meets: &[Meets::Lasts(GRANTED), Meets::Says(OWN_KEY)],
        sent: &[KEEP, RANGE],
        heard: Heard::Granted {
            term: 2,
            ttl: 9_000,
        },
        after: Some(Held {
            from: NOW + 2,
            ..HELD
        }),
        ..NEW
    },
    Row {
        name: "the lease is gone",
        meets: &[Meets::Lasts(GONE)],
        sent: &[KEEP],
        after: None,
        ..WAITING
    },
    Row {
        name: "the key is another's",
        meets: &[Meets::Lasts(GRANTED), Meets::Says(OTHER_KEY)],
        sent: &[KEEP, RANGE],
        after: None,
        ..WAITING
    },
    Row {
        name: "the key is gone",
        meets: &[Meets::Lasts(GRANTED), Meets::Says("")],
        sent: &[KEEP, RANGE],
        after: None,
        ..WAITING
    },
    Row {
        name: "no endpoint answers",
        meets: &[Meets::Refused, Meets::Refused, Meets::Refused],
        passed: " a:1 b:2 c:3",
        ..WAITING
    },
    Row {
        name: "no endpoint shows the key",
        held: Some(HELD),
        meets: &[
            Meets::Lasts(GRANTED),
            Meets::Refused,
            Meets::Refused,
            Meets::Refused,
        ],
        sent: &[KEEP],
        after: Some(HELD),
        passed: " a:1 b:2 c:3",
        ..NEW
    },
];

#[test]
fn keys_put(rt: HostRuntime) {
    let _named: Option<(TcpListener, TcpStream)> = None;
    are_rounds(rt, rt.alloc(), PUTS);
}

#[test]
fn puts_whose_replies_are_lost(rt: HostRuntime) {
    let _named: Option<(TcpListener, TcpStream)> = None;
    are_rounds(rt, rt.alloc(), LOST);
}

#[test]
fn keys_that_wait(rt: HostRuntime) {
    let _named: Option<(TcpListener, TcpStream)> = None;
    are_rounds(rt, rt.alloc(), WAITS);
}
