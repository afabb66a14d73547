//! Who is primary.
use super::{HELD, Heard, IDLE, LEASE, Meets, OTHER_KEY, OWN_KEY, RANGE, Row, are_rounds};
use etcd_lease::Held;
use std::net::{TcpListener, TcpStream};

/// A key whose value is no base64; one whose value is no JSON; one that says that nobody is primary; one without a value.
const NO_CODE: &str =
    ",\"kvs\":[{\"create_revision\":\"3\",\"lease\":\"9\",\"value\":\"eyJ!\"}],\"count\":\"1\"";

const NO_JSON: &str =
    ",\"kvs\":[{\"create_revision\":\"3\",\"lease\":\"9\",\"value\":\"aGVsbG8=\"}],\"count\":\"1\"";

const EMPTY: &str =
    ",\"kvs\":[{\"create_revision\":\"3\",\"lease\":\"9\",\"value\":\"e30=\"}],\"count\":\"1\"";

const NO_VALUE: &str = ",\"kvs\":[{\"create_revision\":\"3\",\"lease\":\"9\"}],\"count\":\"1\"";

const ASKED: Row = Row {
    sent: &[RANGE],
    ..IDLE
};

const WHO: &[Row] = &[
    Row {
        name: "another",
        meets: &[Meets::Says(OTHER_KEY)],
        heard: Heard::Primary { db2: true },
        ..ASKED
    },
    Row {
        name: "another, where a key was held",
        held: Some(HELD),
        meets: &[Meets::Says(OTHER_KEY)],
        heard: Heard::Primary { db2: true },
        after: Some(HELD),
        ..ASKED
    },
    Row {
        name: "its own key, that is not held",
        meets: &[Meets::Says(OWN_KEY)],
        heard: Heard::Primary { db2: false },
        ..ASKED
    },
    Row {
        name: "its own key of another lease",
        held: Some(ELSE),
        meets: &[Meets::Says(OWN_KEY)],
        heard: Heard::Primary { db2: false },
        after: Some(ELSE),
        ..ASKED
    },
    Row {
        name: "its own key",
        held: Some(HELD),
        meets: &[Meets::Says(OWN_KEY)],
        heard: Heard::Nobody,
        after: Some(HELD),
        ..ASKED
    },
    Row {
        name: "nobody",
        meets: &[Meets::Says("")],
        heard: Heard::Nobody,
        ..ASKED
    },
    Row {
        name: "no base64",
        meets: &[Meets::Says(NO_CODE)],
        ..ASKED
    },
    Row {
        name: "no JSON",
        meets: &[Meets::Says(NO_JSON)],
        ..ASKED
    },
    Row {
        name: "a key that says that nobody is primary",
        meets: &[Meets::Says(EMPTY)],
        heard: Heard::Nobody,
        ..ASKED
    },
    Row {
        name: "no value",
        meets: &[Meets::Says(NO_VALUE)],
        ..ASKED
    },
];

const ELSE: Held = Held {
    lease: LEASE + 1,
    ..HELD
};

#[test]
fn who_is_primary(rt: HostRuntime) {
    let _named: Option<(TcpListener, TcpStream)> = None;
    are_rounds(rt, rt.alloc(), WHO);
}
