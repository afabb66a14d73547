//! Rounds of a node whose lease is a key of etcd, over links in memory.
//!
//! The texts of replies are those that Debian's etcd 3.4.23 wrote to curl.
ghost use Rattle.std.specs.Prelude.{All};
ghost use Rattle.lf_base.specs.Doors.{IsUnused};

mod acquiring;
mod endpoints;
mod informing;
mod renewing;

use crate::etcd_texts::{KEY, with_header, with_result};
use crate::exchange::link_of;
use crate::same::same;
use etcd_lease::{EtcdService, EtcdSettings, Held, Noting};
use lease_core::LeaseAsk;
use lease_link::{Learned, Service, Unlearned};
use lf_base::{Clock, Handles, MemDialer, MemLink, Text, Watch};
use link_session::Turns;
use std::alloc::Global;
use std::process::Abort;

/// The moment before each round.
const NOW: u64 = 1_000_000;

/// Enough turns for a round in which each byte comes alone.
const TURNS: u64 = 9_999;

/// What a dial meets.
#[derive(Clone, Copy, Debug, PartialEq, Eq)]
enum Meets {
    /// It is refused.
    Refused,
    /// A link whose call of this number fails, counted from 0.
    Fails(u64),
    /// A link that gives this text.
    Text(&'static str),
    /// A reply with this status line and this body.
    Status(&'static str, &'static str),
    /// A whole reply, with this beside the header of its body.
    Says(&'static str),
    /// The same to `KeepAlive`: it ends with the link.
    Lasts(&'static str),
}

/// A reply with this status line and this body.
fn reply(rt: impl Copy + Abort, alloc: Global, status: &str, body: &str) -> String {
    format!(in alloc;
        "HTTP/1.0 {status}\r\nContent-Type: application/json\r\nGrpc-Metadata-Content-Type: application/grpc\r\n\
        Date: Mon, 30 Nov 2026 20:14:45 GMT\r\nContent-Length: {}\r\n\r\n{body}",
        body.len()
    )
    .expect(&rt, "memory")
}

/// One without a length.
fn unending(rt: impl Copy + Abort, alloc: Global, body: &str) -> String {
    format!(in alloc;
        "HTTP/1.0 200 OK\r\nContent-Type: application/json\r\nGrpc-Metadata-Content-Type: application/grpc\r\n\
        Date: Mon, 30 Nov 2026 20:14:45 GMT\r\n\r\n{body}"
    )
    .expect(&rt, "memory")
}

/// The text that a link gives.
fn text_of(rt: impl Copy + Abort, alloc: Global, meets: Meets) -> String {
    match meets {
        Meets::Refused | Meets::Fails(_) => String::new(alloc),
        Meets::Text(text) => String::from_str(alloc, text).expect(&rt, "memory"),
        Meets::Status(status, body) => reply(rt, alloc, status, body),
        Meets::Says(beside) => {
            let body = with_header(rt, alloc, beside);
            reply(rt, alloc, "200 OK", body.as_str())
        }
        Meets::Lasts(beside) => {
            let body = with_result(rt, alloc, beside);
            unending(rt, alloc, body.as_str())
        }
    }
}

/// The links of a dialer, what shows what each took, and which dials fail.
#[derive(Drop)]
struct Lines {
    links: Vec<MemLink>,
    watches: Vec<Watch>,
    failing: Vec<u64>,
    dials: u64,
}

/// One more dial, whose link gives its text in pieces of a size.
fn add(rt: impl Copy + Abort, alloc: Global, lines: &mut Lines, meets: Meets, size: usize)
    requires { All IsUnused lines.old.links.items }
    ensures { All IsUnused lines.new.links.items }
{
    let dial = lines.dials;
    lines.dials = dial.saturating_add(1);
    let failing = match meets {
        Meets::Refused => {
            assert!(rt; lines.failing.push(dial).is_ok());
            return;
        }
        Meets::Fails(call) => call,
        _ => TURNS,
    };
    let text = text_of(rt, alloc, meets);
    let link = link_of(&rt, alloc, text.as_bytes(), size, 1_024, failing);
    assert!(rt; lines.watches.push(link.watch()).is_ok());
    assert!(rt; lines.links.push(link).is_ok());
}

fn lines_of(rt: impl Copy + Abort, alloc: Global, meets: &[Meets], size: usize) -> Lines
    ensures { All IsUnused result.links.items }
{
    let mut lines = Lines {
        links: Vec::new(alloc),
        watches: Vec::new(alloc),
        failing: Vec::new(alloc),
        dials: 0,
    };
    for met in meets {
        add(rt, alloc, &mut lines, *met, size);
    }
    lines
}

/// A clock that goes on by a millisecond with each link on which something was written.
#[derive(Drop)]
struct DialClock<'a> {
    watches: &'a [Watch],
    last: u64,
}

impl Clock for DialClock<'_> {
    ghost use Rattle.std.specs.Prelude.{true};

    ghost given = { λ c. c.last };

    ghost may_give = { λ _ _. true };

    fn now_ms(&mut self) -> u64 {
        self.last = NOW.saturating_add(count_used(self.watches));
        self.last
    }
}

/// On how many links something was written.
fn count_used(watches: &[Watch]) -> u64 {
    let mut count = 0u64;
    for watch in watches {
        if watch.bytes().is_ok_and(|bytes| !bytes.is_empty()) {
            count = count.saturating_add(1);
        }
    }
    count
}

/// The endpoints that were passed over, each behind a blank.
#[derive(Drop)]
struct Passed {
    text: String,
}

impl Noting for Passed {
    fn passed_over<R: Handles>(&mut self, _rt: &R, endpoint: &Text) {
        let _blank = self.text.push_str(" ").is_ok();
        let _noted = self.text.push_str(endpoint.as_str()).is_ok();
    }
}

/// What is asked of the service.
#[derive(Clone, Copy, Debug, PartialEq, Eq)]
enum Asked {
    Acquire,
    Renew(u64),
    Release(u64),
    Info,
}

fn ask_of(rt: impl Copy + Abort, alloc: Global, asked: Asked) -> LeaseAsk {
    match asked {
        Asked::Acquire => LeaseAsk::Acquire {
            node: 1,
            url: Text::of(alloc, "http://db1:20202").expect(&rt, "memory"),
            host: Text::of(alloc, "db1").expect(&rt, "memory"),
        },
        Asked::Renew(term) => LeaseAsk::Renew { node: 1, term },
        Asked::Release(term) => LeaseAsk::Release { node: 1, term },
        Asked::Info => LeaseAsk::Info,
    }
}

/// What is heard of it. `db2` is whether it tells the second node.
#[derive(Clone, Copy, Debug, PartialEq, Eq)]
enum Heard {
    Nothing,
    Nobody,
    Granted { term: u64, ttl: u64 },
    Lost,
    Primary { db2: bool },
    Turns,
    NoMemory,
}

fn heard_of(heard: Result<Learned, Unlearned>) -> Heard {
    match heard {
        Ok(Learned::Nothing) => Heard::Nothing,
        Ok(Learned::Nobody) => Heard::Nobody,
        Ok(Learned::Granted { term, ttl }) => Heard::Granted { term, ttl },
        Ok(Learned::Lost) => Heard::Lost,
        Ok(Learned::Primary { host, url }) => Heard::Primary {
            db2: host.as_str() == "db2" && url.as_str() == "http://db2:20203",
        },
        Err(Unlearned::Turns) => Heard::Turns,
        Err(Unlearned::NoMemory) => Heard::NoMemory,
    }
}

/// A call as it stands on a link: to which endpoint, its path and its body.
#[derive(Clone, Copy, Debug, PartialEq, Eq)]
struct Sent {
    host: &'static str,
    path: &'static str,
    body: &'static str,
}

/// The calls of a round, one behind another.
fn sent_text(rt: impl Copy + Abort, alloc: Global, sent: &[Sent]) -> String {
    let mut text = String::new(alloc);
    for Sent { host, path, body } in sent {
        let call = format!(in alloc;
            "POST {path} HTTP/1.0\r\nHost: {host}\r\nContent-Type: application/json\r\nContent-Length: {}\r\n\r\n{body}",
            body.len()
        )
        .expect(&rt, "memory");
        assert!(rt; text.push_str(call.as_str()).is_ok());
    }
    text
}

/// What the links took, one behind another.
fn taken(rt: impl Copy + Abort, alloc: Global, watches: &[Watch]) -> Vec<u8> {
    let mut all = Vec::new(alloc);
    for watch in watches {
        let bytes = watch.bytes().expect(&rt, "memory");
        assert!(rt; all.extend_from_slice(bytes.as_slice()).is_ok());
    }
    all
}

/// A round: which key is held, what is asked, what the dials meet; what is written on their links, what is
/// heard, which key is held then, the endpoints in their order then, and those that were passed over.
#[derive(Clone, Copy, Debug, PartialEq, Eq)]
struct Row<'a> {
    name: &'static str,
    held: Option<Held>,
    asked: Asked,
    meets: &'a [Meets],
    sent: &'a [Sent],
    heard: Heard,
    after: Option<Held>,
    order: &'static str,
    passed: &'static str,
}

/// Three endpoints, a lease of ten seconds, and this key.
fn service_of<'a>(
    rt: impl Copy + Abort,
    alloc: Global,
    held: Option<Held>,
    watches: &'a [Watch],
) -> EtcdService<DialClock<'a>, Passed> {
    let mut endpoints = Vec::new(alloc);
    for address in ["a:1", "b:2", "c:3"] {
        let address = Text::of(alloc, address).expect(&rt, "memory");
        assert!(rt; endpoints.push(address).is_ok());
    }
    EtcdService {
        settings: EtcdSettings {
            key: Text::of(alloc, KEY).expect(&rt, "memory"),
            ttl: 10,
        },
        endpoints,
        held,
        clock: DialClock { watches, last: 0 },
        notes: Passed {
            text: String::new(alloc),
        },
    }
}

/// The endpoints, each behind a blank.
fn order_of(rt: impl Copy + Abort, alloc: Global, endpoints: &[Text]) -> String {
    let mut text = String::new(alloc);
    for endpoint in endpoints {
        assert!(rt; text.push_str(" ").is_ok());
        assert!(rt; text.push_str(endpoint.as_str()).is_ok());
    }
    text
}

/// The round is so, over links that give their texts in pieces of a size.
fn is_round<R: Handles + Abort + Copy>(rt: R, alloc: Global, row: &Row, size: usize) {
    let Lines {
        links,
        watches,
        failing,
        dials: _,
    } = lines_of(rt, alloc, row.meets, size);
    let mut dialer = MemDialer::new(alloc, links, 9, failing).expect(&rt, "a dialer");
    let mut service = service_of(rt, alloc, row.held, watches.as_slice());
    let asked = ask_of(rt, alloc, row.asked);
    let mut turns = Turns::new(TURNS);
    let heard = heard_of(service.ask(&rt, alloc, &mut dialer, &asked, &mut turns));
    same(rt, (row.name, heard), (row.name, row.heard));
    same(rt, (row.name, service.held), (row.name, row.after));
    let order = order_of(rt, alloc, service.endpoints.as_slice());
    same(rt, (row.name, order.as_str()), (row.name, row.order));
    same(
        rt,
        (row.name, service.notes.text.as_str()),
        (row.name, row.passed),
    );
    let (got, wanted) = (
        taken(rt, alloc, watches.as_slice()),
        sent_text(rt, alloc, row.sent),
    );
    same(
        rt,
        (row.name, got.as_slice()),
        (row.name, wanted.as_bytes()),
    );
}

/// What is heard of a renewal, how many turns it took, and which key is held then.
#[derive(Clone, Copy, Debug, PartialEq, Eq)]
struct Renewed {
    heard: Heard,
    spent: u64,
    held: Option<Held>,
}

/// The term is renewed by these dials, with so many turns.
fn told_by<R: Handles + Abort + Copy>(
    rt: R,
    alloc: Global,
    meets: &[Meets],
    budget: u64,
) -> Renewed {
    let Lines {
        links,
        watches,
        failing,
        dials: _,
    } = lines_of(rt, alloc, meets, 99_999);
    let mut dialer = MemDialer::new(alloc, links, 9, failing).expect(&rt, "a dialer");
    let mut service = service_of(rt, alloc, Some(HELD), watches.as_slice());
    let asked = ask_of(rt, alloc, Asked::Renew(HELD.term));
    let mut turns = Turns::new(budget);
    let heard = heard_of(service.ask(&rt, alloc, &mut dialer, &asked, &mut turns));
    Renewed {
        heard,
        spent: budget.saturating_sub(turns.left()),
        held: service.held,
    }
}

/// The rounds are so, however their texts come.
fn are_rounds<R: Handles + Abort + Copy>(rt: R, alloc: Global, rows: &[Row]) {
    for row in rows {
        for size in [1usize, 7, 99_999] {
            is_round(rt, alloc, row, size);
        }
    }
}

// ---- what the rows share

/// The order in which the endpoints are asked first.
const FIRST: &str = " a:1 b:2 c:3";

/// The node's own lease.
const LEASE: u64 = 2_324_035_681_771_875_335;

/// The key that is held, which stands for a lease since long ago.
const HELD: Held = Held {
    term: 2,
    lease: LEASE,
    from: 0,
};

/// The key by that lease, as a reply to `Range` says it; by that of another node; and by its own, but put
/// again.
const OWN_KEY: &str =
    ",\"kvs\":[{\"key\":\"bGl0ZWZzL2RiL3ByaW1hcnk=\",\"create_revision\":\"2\",\"mod_revision\":\"2\",\"version\":\"1\",\
    \"value\":\"eyJob3N0IjoiZGIxIiwidGVybSI6MCwidHRsIjo5MDAwLCJ1cmwiOiJodHRwOi8vZGIxOjIwMjAyIn0=\",\"lease\":\"2324035681771875335\"}],\"count\":\"1\"";

const OTHER_KEY: &str =
    ",\"kvs\":[{\"key\":\"bGl0ZWZzL2RiL3ByaW1hcnk=\",\"create_revision\":\"3\",\"mod_revision\":\"3\",\"version\":\"1\",\
    \"value\":\"eyJob3N0IjoiZGIyIiwidGVybSI6MCwidHRsIjo5MDAwLCJ1cmwiOiJodHRwOi8vZGIyOjIwMjAzIn0=\",\"lease\":\"2324035681771875339\"}],\"count\":\"1\"";

/// A lease of ten seconds, granted; and one that lasts for so long.
const GRANTED: &str = ",\"ID\":\"2324035681771875335\",\"TTL\":\"10\"";

/// A lease that is gone.
const GONE: &str = ",\"ID\":\"2324035681771875335\"";

/// The calls of the first endpoint.
const RANGE: Sent = Sent {
    host: "a:1",
    path: "/v3/kv/range",
    body: "{\"key\":\"bGl0ZWZzL2RiL3ByaW1hcnk=\"}",
};

const GRANT: Sent = Sent {
    host: "a:1",
    path: "/v3/lease/grant",
    body: "{\"TTL\":10}",
};

const PUT: Sent = Sent {
    host: "a:1",
    path: "/v3/kv/txn",
    body: "{\"compare\":[{\"create_revision\":\"0\",\"key\":\"bGl0ZWZzL2RiL3ByaW1hcnk=\",\"target\":\"CREATE\"}],\
        \"success\":[{\"request_put\":{\"key\":\"bGl0ZWZzL2RiL3ByaW1hcnk=\",\"lease\":2324035681771875335,\
        \"value\":\"eyJob3N0IjoiZGIxIiwidGVybSI6MCwidHRsIjo5MDAwLCJ1cmwiOiJodHRwOi8vZGIxOjIwMjAyIn0=\"}}]}",
};

const KEEP: Sent = Sent {
    host: "a:1",
    path: "/v3/lease/keepalive",
    body: "{\"ID\":2324035681771875335}",
};

const REVOKE: Sent = Sent {
    host: "a:1",
    path: "/v3/lease/revoke",
    body: "{\"ID\":2324035681771875335}",
};

/// A round that tells nothing, and leaves all as it was.
const IDLE: Row = Row {
    name: "idle",
    held: None,
    asked: Asked::Info,
    meets: &[],
    sent: &[],
    heard: Heard::Nothing,
    after: None,
    order: FIRST,
    passed: "",
};
