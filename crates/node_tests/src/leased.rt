//! Nodes with a lease service, which a thread plays over the system's sockets: what they ask it, and whom they dial.

use crate::same::same;
use lf_base::{Closing, Handles, SliceSource};
use node_mount::mount;
use node_objects::{System, SystemMaker};
use std::alloc::Global;
use std::io::{Read, Write};
use std::net::{TcpListener, TcpStream};
use std::process::Abort;
use std::{fs, thread};

/// The words that tell requests to the service apart, and a letter for each.
const ASKS: &[(&str, u8)] = &[
    ("\"info\"", b'i'),
    ("\"acquire\"", b'a'),
    ("\"renew\"", b'r'),
    ("\"release\"", b'e'),
];

/// What the service replies to these, where it names nobody.
const REPLIES: [(u8, &str); 4] = [
    (b'i', "{}"),
    (
        b'a',
        "{\"host\":\"localhost\",\"term\":1,\"ttl\":8000,\"url\":\"http://127.0.0.1:1\"}",
    ),
    (b'r', "{\"ttl\":8000}"),
    (b'e', "{}"),
];

/// How often the service is asked before it is not: at which request the word is closed, from which on
/// nobody is named as primary, which is hung up without an answer, and which is the last.
#[derive(Clone, Copy)]
struct Script {
    named: usize,
    silent: usize,
    closes: usize,
    last: usize,
}

/// What was asked, in order, and how often the node that was named was dialed by the request behind the
/// last that named it, by the second behind that, and by the one that closed the word.
#[derive(Debug, Drop, PartialEq)]
struct Seen {
    letters: Vec<u8>,
    early: u64,
    late: u64,
}

/// A request that doesn't come.
const NEVER: usize = 99;

/// A node without a database, whether it begins a cluster, its ttl, what its service does, the letters of what it is asked,
/// and whether the node that was named is dialed.
#[derive(Clone, Copy)]
struct Row {
    database: &'static str,
    candidate: bool,
    bootstrap: bool,
    ttl: u64,
    script: Script,
    letters: &'static [u8],
    follows: bool,
}

/// Nobody is named, and each request is answered.
const NOBODY: Script = Script {
    named: 0,
    silent: NEVER,
    closes: 2,
    last: 4,
};

/// A candidate that begins a cluster asks who is primary, and then to be it, and to stay it. At its end it gives the term back.
const FIRST: Row = Row {
    database: "leased_first",
    candidate: true,
    bootstrap: true,
    ttl: 8000,
    script: NOBODY,
    letters: b"iare",
    follows: false,
};

const ROWS: &[Row] = &[
    FIRST,
    // Another node asks who is primary, and nothing else.
    Row {
        database: "leased_never",
        candidate: false,
        script: Script { last: 3, ..NOBODY },
        letters: b"iii",
        ..FIRST
    },
    // So does a candidate that doesn't begin one, while it waits.
    Row {
        database: "leased_waits",
        bootstrap: false,
        script: Script {
            closes: 4,
            last: 5,
            ..NOBODY
        },
        letters: b"iiiii",
        ..FIRST
    },
    // It asks after the rounds of three leases, here of one each, that were named nobody.
    Row {
        database: "leased_waited",
        bootstrap: false,
        ttl: 50,
        script: Script {
            closes: 4,
            last: 6,
            ..NOBODY
        },
        letters: b"iiiare",
        ..FIRST
    },
    // A round without an answer begins anew.
    Row {
        database: "leased_anew",
        bootstrap: false,
        ttl: 50,
        script: Script {
            silent: 2,
            closes: 7,
            last: 9,
            ..NOBODY
        },
        letters: b"iiiiiiare",
        ..FIRST
    },
    // A candidate follows the primary that is named, and nobody once it is primary itself.
    Row {
        database: "leased_follows",
        script: Script {
            named: 2,
            closes: 7,
            last: 9,
            ..NOBODY
        },
        letters: b"iiiarrrre",
        follows: true,
        ..FIRST
    },
];

/// The bytes of a request, to the end of its body.
pub(crate) fn request_on<R: Copy + Abort>(rt: R, alloc: Global, stream: &mut TcpStream) -> Vec<u8> {
    let mut request = Vec::new(alloc);
    let mut piece = [0u8; 512];
    for _ in 0..64u32 {
        let count = stream.read(&mut piece).expect(&rt, "bytes");
        let read = piece.get(..count).expect(&rt, "what was read");
        request.extend_from_slice(read).expect(&rt, "memory");
        if count == 0 || request.as_slice().ends_with(b"}") {
            break;
        }
    }
    request
}

/// The letter of the first of these words that a request has.
pub(crate) fn letter_of<R: Copy + Abort>(rt: R, request: &[u8], words: &[(&str, u8)]) -> u8 {
    let text = str::from_utf8(request).expect(&rt, "text");
    for (word, letter) in words {
        if text.contains(*word) {
            return *letter;
        }
    }
    b'?'
}

fn reply_to(letter: u8) -> &'static str {
    for (asked, reply) in REPLIES {
        if asked == letter {
            return reply;
        }
    }
    ""
}

/// Writes a reply with this body.
fn write_reply<R: Copy + Abort>(rt: R, alloc: Global, stream: &mut TcpStream, body: &str) {
    let length = body.len();
    let text = format!(in alloc;
        "HTTP/1.1 200 OK\r\nContent-Length: {length}\r\nConnection: close\r\n\r\n{body}"
    ).expect(&rt, "memory");
    stream.write_all(text.as_bytes()).expect(&rt, "written");
}

/// Takes each link that waits and hangs it up. How many these were.
fn hang_up_all(listener: &TcpListener) -> u64 {
    let mut count: u64 = 0;
    for _ in 0..64u32 {
        if listener.accept().is_err() {
            break;
        }
        count = count.saturating_add(1);
    }
    count
}

/// Answers the requests of a script. The first are told that the primary is at `other`.
fn serve<R: Handles + Copy + Abort>(
    rt: R,
    alloc: Global,
    service: &TcpListener,
    other: &TcpListener,
    script: Script,
    closing: &Closing,
) -> Seen {
    let address = other.local_addr().expect(&rt, "its address");
    let named = format!(in alloc;
        "{{\"host\":\"other\",\"term\":1,\"ttl\":8000,\"url\":\"http://{address}\"}}"
    ).expect(&rt, "memory");
    let mut seen = Seen {
        letters: Vec::new(alloc),
        early: 0,
        late: 0,
    };
    for number in 0..script.last {
        let (mut stream, _) = service.accept().expect(&rt, "a link");
        let request = request_on(rt, alloc, &mut stream);
        let letter = letter_of(rt, request.as_slice(), ASKS);
        seen.letters.push(letter).expect(&rt, "memory");
        if number == script.named.saturating_add(1) {
            seen.early = hang_up_all(other);
        }
        if number == script.named.saturating_add(3) {
            hang_up_all(other);
        }
        if number == script.closes {
            seen.late = hang_up_all(other);
            closing.close_doors(&rt);
        }
        if number == script.silent {
            continue;
        }
        if number < script.named {
            write_reply(rt, alloc, &mut stream, named.as_str());
        } else {
            write_reply(rt, alloc, &mut stream, reply_to(letter));
        }
    }
    seen
}

/// Plays the service, in a thread of its own.
fn peer_of<R: Handles + Abort + Copy + Send + 'static>(
    rt: R,
    alloc: Global,
    service: TcpListener,
    other: TcpListener,
    script: Script,
    closing: Closing,
) -> thread::JoinHandle<Seen> {
    let started = thread::spawn(&rt, move || -> Seen {
        serve(rt, alloc, &service, &other, script, &closing)
    });
    started.ok().expect(&rt, "a thread")
}

/// The configuration of a node that asks the service.
fn config_of<R: Handles + Abort + Copy>(
    rt: R,
    alloc: Global,
    row: &Row,
    service: &TcpListener,
) -> String {
    let address = service.local_addr().expect(&rt, "its address");
    let Row {
        database,
        candidate,
        bootstrap,
        ttl,
        ..
    } = *row;
    format!(in alloc;
        "database = \"{database}\"\n[fuse]\nlisten = \"{database}_socket\"\n[http]\naddr = \"127.0.0.1:0\"\n\
        [lease]\ntype = \"service\"\nservice-url = \"http://{address}\"\ncandidate = {candidate}\nbootstrap = {bootstrap}\nttl = {ttl}\n\
        advertise-url = \"http://127.0.0.1:1\"\nhostname = \"localhost\"\n"
    )
    .expect(&rt, "memory")
}

/// Removes the socket of such a node.
pub(crate) fn remove_socket<R: System + Abort + Copy>(rt: R, alloc: Global, database: &str) {
    let socket = format!(in alloc; "{database}_socket").expect(&rt, "memory");
    fs::remove_file(&rt, socket.as_str()).expect(&rt, "removed");
}

/// What was seen is what the row wants.
fn is_wanted<R: Abort + Copy>(rt: R, row: &Row, seen: &Seen) {
    same(rt, seen.letters.as_slice(), row.letters);
    same(rt, (seen.early > 0, seen.late), (row.follows, 0));
}

#[test]
fn a_lease_service_is_asked(rt: HostRuntime) {
    let _named: Option<(TcpListener, TcpStream)> = None;
    let alloc = rt.alloc();
    for row in ROWS {
        let service = TcpListener::bind(&rt, "127.0.0.1:0").expect(&rt, "a listener");
        let other = TcpListener::bind(&rt, "127.0.0.1:0").expect(&rt, "a listener");
        other.set_nonblocking(true).expect(&rt, "no waiting");
        let config = config_of(rt, alloc, row, &service);
        let closing = Closing::new(alloc).expect(&rt, "memory");
        let theirs = closing.another().expect(&rt, "memory");
        let mut maker = SystemMaker::new(rt, closing).expect(&rt, "a maker");
        let mut source = SliceSource::new(config.as_bytes(), Vec::new(alloc)).expect(
            &rt, "a source",
        );
        let peer = peer_of(rt, alloc, service, other, row.script, theirs);
        same(rt, mount(rt, alloc, &mut source, &mut maker), Ok(()));
        remove_socket(rt, alloc, row.database);
        is_wanted(rt, row, &peer.join(&rt));
    }
}
