//! A node with a lease by etcd, of which a thread plays the one endpoint that answers over the system's sockets.

use crate::leased::{letter_of, remove_socket, request_on};
use crate::same::same;
use lf_base::{Closing, Handles, SliceSource};
use node_mount::mount;
use node_objects::SystemMaker;
use std::alloc::Global;
use std::io::Write;
use std::net::{TcpListener, TcpStream};
use std::process::Abort;
use std::thread;

/// The paths of calls, and a letter for each.
const CALLS: &[(&str, u8)] = &[
    ("/v3/kv/range", b'r'),
    ("/v3/lease/grant", b'g'),
    ("/v3/kv/txn", b'p'),
    ("/v3/lease/keepalive", b'k'),
    ("/v3/lease/revoke", b'e'),
];

/// What etcd 3.4 says of a lease of 2 s, with the fields that it has there.
const GRANTED: &str =
    "{\"header\":{\"cluster_id\":\"14841639068965178418\",\"member_id\":\"10276657743932975437\",\"revision\":\"1\",\"raft_term\":\"2\"},\"ID\":\"2324035681771875335\",\"TTL\":\"2\"}";

const LASTS: &str =
    "{\"result\":{\"header\":{\"cluster_id\":\"14841639068965178418\",\"member_id\":\"10276657743932975437\",\"revision\":\"2\",\"raft_term\":\"2\"},\"ID\":\"2324035681771875335\",\"TTL\":\"2\"}}";

const PUT: &str =
    "{\"header\":{\"revision\":\"2\"},\"succeeded\":true,\"responses\":[{\"response_put\":{\"header\":{\"revision\":\"2\"}}}]}";

/// The key of the database `etcd_leased`, in base64, with a value that nobody reads here.
const HELD: &str =
    "{\"header\":{\"revision\":\"2\"},\"kvs\":[{\"key\":\"bGl0ZWZzL2V0Y2RfbGVhc2VkL3ByaW1hcnk=\",\"create_revision\":\"2\",\"mod_revision\":\"2\",\"version\":\"1\",\"value\":\"e30=\",\"lease\":\"2324035681771875335\"}],\"count\":\"1\"}";

const NOTHING: &str = "{\"header\":{\"revision\":\"1\"}}";

/// How often its lease is kept before the word is closed: a round naps 100 ms, in every second one it is kept, and a key stands for a
/// lease a second behind its put.
const KEPT: usize = 12;

/// What is replied, by what was asked before.
fn reply_to(letter: u8, asked: &[u8]) -> &'static str {
    match letter {
        b'r' if asked.contains(&b'p') => HELD,
        b'g' => GRANTED,
        b'p' => PUT,
        b'k' => LASTS,
        _ => NOTHING,
    }
}

/// Writes a reply as etcd does to HTTP/1.0: keepalive's has no length, and ends with the link.
fn write_reply<R: Copy + Abort>(
    rt: R,
    alloc: Global,
    stream: &mut TcpStream,
    letter: u8,
    body: &str,
) {
    let length = body.len();
    let head = if letter == b'k' {
        format!(in alloc; "HTTP/1.0 200 OK\r\nContent-Type: application/json\r\n\r\n{body}")
    } else {
        format!(in alloc;
            "HTTP/1.0 200 OK\r\nContent-Type: application/json\r\nContent-Length: {length}\r\n\r\n{body}"
        )
    };
    let text = head.expect(&rt, "memory");
    stream.write_all(text.as_bytes()).expect(&rt, "written");
}

/// Replies, and closes the word once the lease was kept so often. The last that is asked is that the lease ends. Answers the letters of what
/// was asked.
fn serve<R: Handles + Copy + Abort>(
    rt: R,
    alloc: Global,
    etcd: &TcpListener,
    closing: &Closing,
) -> Vec<u8> {
    let mut asked = Vec::new(alloc);
    let mut kept: usize = 0;
    for _ in 0..1000u32 {
        let (mut stream, _) = etcd.accept().expect(&rt, "a link");
        let request = request_on(rt, alloc, &mut stream);
        let letter = letter_of(rt, request.as_slice(), CALLS);
        let reply = reply_to(letter, asked.as_slice());
        asked.push(letter).expect(&rt, "memory");
        if letter == b'k' {
            kept = kept.saturating_add(1);
        }
        if kept == KEPT && letter == b'r' {
            closing.close_doors(&rt);
        }
        write_reply(rt, alloc, &mut stream, letter, reply);
        if letter == b'e' {
            break;
        }
    }
    asked
}

/// The thread that plays the endpoint.
fn play<R: Handles + Abort + Copy + Send + 'static>(
    rt: R,
    alloc: Global,
    etcd: TcpListener,
    closing: Closing,
) -> thread::JoinHandle<Vec<u8>> {
    let started = thread::spawn(&rt, move || -> Vec<u8> {
        serve(rt, alloc, &etcd, &closing)
    });
    started.ok().expect(&rt, "a thread")
}

fn config_of<R: Handles + Abort + Copy>(
    rt: R,
    alloc: Global,
    silent: &TcpListener,
    etcd: &TcpListener,
) -> String {
    let first = silent.local_addr().expect(&rt, "its address");
    let second = etcd.local_addr().expect(&rt, "its address");
    format!(in alloc;
        "database = \"etcd_leased\"\n[fuse]\nlisten = \"etcd_leased_socket\"\n[http]\naddr = \"127.0.0.1:0\"\n\
        [lease]\ntype = \"etcd\"\ncandidate = true\nbootstrap = true\nttl = 2000\nadvertise-url = \"http://127.0.0.1:1\"\nhostname = \"localhost\"\n\
        [lease.etcd]\nendpoints = [\"http://{first}\", \"http://{second}\"]\n"
    )
    .expect(&rt, "memory")
}

fn count_of(asked: &[u8], letter: u8) -> usize {
    let mut count: usize = 0;
    for each in asked {
        if *each == letter {
            count = count.saturating_add(1);
        }
    }
    count
}

/// Whether the letters are those of a node that looks, puts the key once, looks at it, keeps it, and ends its lease behind all.
fn is_lease(asked: &[u8]) -> bool {
    let once = [b'g', b'p', b'e']
        .iter()
        .all(|letter| count_of(asked, *letter) == 1);
    let kept = count_of(asked, b'k') >= KEPT && count_of(asked, b'?') == 0;
    asked.starts_with(b"rgprr") && asked.ends_with(b"kre") && once && kept
}

/// A candidate asks who is primary, puts the key, keeps it, and gives it back. The first endpoint takes links and answers nothing.
#[test]
fn a_lease_is_taken_of_etcd(rt: HostRuntime) {
    let _named: Option<(TcpListener, TcpStream)> = None;
    let alloc = rt.alloc();
    let silent = TcpListener::bind(&rt, "127.0.0.1:0").expect(&rt, "a listener");
    let etcd = TcpListener::bind(&rt, "127.0.0.1:0").expect(&rt, "a listener");
    let config = config_of(rt, alloc, &silent, &etcd);
    let closing = Closing::new(alloc).expect(&rt, "memory");
    let theirs = closing.another().expect(&rt, "memory");
    let mut maker = SystemMaker::new(rt, closing).expect(&rt, "a maker");
    let mut source = SliceSource::new(config.as_bytes(), Vec::new(alloc)).expect(&rt, "a source");
    let peer = play(rt, alloc, etcd, theirs);
    same(rt, mount(rt, alloc, &mut source, &mut maker), Ok(()));
    remove_socket(rt, alloc, "etcd_leased");
    let asked = peer.join(&rt);
    same(rt, is_lease(asked.as_slice()), true);
}
