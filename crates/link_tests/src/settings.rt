//! Texts of configurations, with what they say or that they are refused.
use crate::same::{holds, same};
use node_settings::{
    Complaint, LeaseType, ServiceSettings, Settings, SettingsRefusal, read_service_settings,
    read_settings, read_static_settings,
};
use std::alloc::Global;
use std::process::Abort;

/// The keys that are required.
const REQUIRED: &str =
    "database = \"app\"\n[lease]\nadvertise-url = \"http://db1:20202\"\nhostname = \"db1\"\n";

/// The settings in the order of the keys, with the address of a URL.
fn line(rt: impl Copy + Abort, alloc: Global, settings: &Settings) -> String {
    let service = match &settings.lease.service_url {
        Some(url) => url.address().as_str(),
        None => "none",
    };
    format!(in alloc;
        "{} {} {} {} {} {} {} {}",
        settings.socket.as_str(),
        settings.http.text().as_str(),
        settings.retention_files,
        settings.lease.candidate,
        settings.lease.advertise_url.address().as_str(),
        settings.lease.hostname.as_str(),
        service,
        settings.lease.ttl
    )
    .expect(&rt, "memory")
}

fn with_required(rt: impl Copy + Abort, alloc: Global, more: &str) -> String {
    let mut text = String::from_str(alloc, REQUIRED).expect(&rt, "memory");
    text.push_str(more).expect(&rt, "memory");
    text
}

/// The text is a configuration of the database `app` that says this.
fn says(rt: impl Copy + Abort, alloc: Global, text: &str, said: &str) {
    let settings = read_settings(alloc, text.as_bytes()).expect(&rt, "settings");
    same(rt, settings.database.bytes(), b"app".as_slice());
    same(
        rt,
        (text, line(rt, alloc, &settings).as_str()),
        (text, said),
    );
}

const READ: &[(&str, &str)] = &[
    ("", "litefs.sock :20202 1000 false db1:20202 db1 none 10000"),
    (
        "type = \"static\"\ncandidate = true\n",
        "litefs.sock :20202 1000 true db1:20202 db1 none 10000",
    ),
    (
        "ttl = 1\n",
        "litefs.sock :20202 1000 false db1:20202 db1 none 1",
    ),
    (
        "ttl = 86_400_000\n",
        "litefs.sock :20202 1000 false db1:20202 db1 none 86400000",
    ),
    (
        "service-url = \"http://lease-1.example_2.org:080\"\n",
        "litefs.sock :20202 1000 false db1:20202 db1 lease-1.example_2.org:080 10000",
    ),
    (
        "[fuse]\nlisten = \"/run/a b.sock\"\n",
        "/run/a b.sock :20202 1000 false db1:20202 db1 none 10000",
    ),
    (
        "[http]\naddr = \"localhost:0\"\n",
        "litefs.sock localhost:0 1000 false db1:20202 db1 none 10000",
    ),
    (
        "[http]\naddr = \"[::1]:65535\"\n",
        "litefs.sock [::1]:65535 1000 false db1:20202 db1 none 10000",
    ),
    (
        "[data]\ncompress = false\nretention-files = 1\n",
        "litefs.sock :20202 1 false db1:20202 db1 none 10000",
    ),
    (
        "[data]\nretention-files = 0x7fff_ffff_ffff_ffff\n",
        "litefs.sock :20202 9223372036854775807 false db1:20202 db1 none 10000",
    ),
    (
        "# none of these has a key\n[fuse]\n[http]\n[data]\n",
        "litefs.sock :20202 1000 false db1:20202 db1 none 10000",
    ),
];

/// What stands behind the required keys, and what it says.
#[test]
fn configurations_are_read(rt: HostRuntime) {
    let alloc = rt.alloc();
    for (more, said) in READ {
        says(rt, alloc, with_required(rt, alloc, more).as_str(), said);
    }
}

/// The settings of what stands beside: the proxy, the mount, and how long a permit lasts.
fn beside_line(rt: impl Copy + Abort, alloc: Global, settings: &Settings) -> String {
    let (addr, target) = match &settings.proxy {
        Some(proxy) => (proxy.addr.text().as_str(), proxy.target.text().as_str()),
        None => ("none", "none"),
    };
    let (dir, program) = mount_words(settings);
    let permit = settings.lease.halt_ttl;
    format!(in alloc; "{addr} {target} {dir} {program} {permit}").expect(&rt, "memory")
}

fn mount_words(settings: &Settings) -> (&str, &str) {
    match &settings.mount {
        Some(mount) => match &mount.program {
            Some(program) => (mount.dir.as_str(), program.as_str()),
            None => (mount.dir.as_str(), "none"),
        },
        None => ("none", "none"),
    }
}

const BESIDE: &[(&str, &str)] = &[
    ("", "none none none none 10000"),
    ("ttl = 7\n", "none none none none 7"),
    ("halt-ttl = 1\n", "none none none none 1"),
    (
        "halt-ttl = 86_400_000\nttl = 7\n",
        "none none none none 86400000",
    ),
    (
        "[proxy]\naddr = \":8080\"\ntarget = \"localhost:3000\"\n",
        ":8080 localhost:3000 none none 10000",
    ),
    (
        "[proxy]\ntarget = \"[::1]:65535\"\naddr = \"a:0\"\n",
        "a:0 [::1]:65535 none none 10000",
    ),
    ("[fuse]\n[proxy]\n", "none none none none 10000"),
    (
        "[fuse]\ndir = \"/mnt/a b\"\n",
        "none none /mnt/a b none 10000",
    ),
    (
        "[fuse]\nprogram = \"./p\"\ndir = \"m\"\nlisten = \"s\"\n",
        "none none m ./p 10000",
    ),
];

/// The keys of what stands beside, and what they say.
#[test]
fn keys_beside_are_read(rt: HostRuntime) {
    let alloc = rt.alloc();
    for (more, said) in BESIDE {
        let text = with_required(rt, alloc, more);
        let settings = read_settings(alloc, text.as_bytes()).expect(&rt, "settings");
        same(
            rt,
            (*more, beside_line(rt, alloc, &settings).as_str()),
            (*more, *said),
        );
    }
}

const BOOTSTRAPS: &[(&str, bool)] = &[
    ("", false),
    ("candidate = true\n", false),
    ("bootstrap = true\n", true),
    ("bootstrap = false\n", false),
    (
        "type = \"service\"\nservice-url = \"http://h:1\"\ncandidate = true\nbootstrap = true\n",
        true,
    ),
];

/// Whether a node asks to be primary at once where it has no database.
#[test]
fn whether_a_node_begins_a_cluster(rt: HostRuntime) {
    let alloc = rt.alloc();
    for (more, said) in BOOTSTRAPS {
        let text = with_required(rt, alloc, more);
        let settings = read_settings(alloc, text.as_bytes()).expect(&rt, "settings");
        same(rt, (*more, settings.lease.bootstrap), (*more, *said));
    }
}

const SERVICE: &str =
    "type = \"service\"\nservice-url = \"http://lease:20202\"\ncandidate = true\n";

/// A node with a lease service: it is read, and refused to one that needs none.
#[test]
fn a_lease_service_is_read(rt: HostRuntime) {
    let alloc = rt.alloc();
    let text = with_required(rt, alloc, SERVICE);
    says(
        rt,
        alloc,
        text.as_str(),
        "litefs.sock :20202 1000 true db1:20202 db1 lease:20202 10000",
    );
    let settings = read_settings(alloc, text.as_bytes()).expect(&rt, "settings");
    holds(
        rt,
        settings.lease.lease_type == LeaseType::Service,
        "its type",
    );
    let refused = read_static_settings(alloc, text.as_bytes());
    same(
        rt,
        complaint(rt, alloc, refused).as_str(),
        "lease.type 5 static",
    );
    let required = with_required(rt, alloc, "service-url = \"http://lease:20202\"\n");
    let fixed = read_static_settings(alloc, required.as_bytes());
    holds(rt, fixed.is_ok(), "a static lease");
}

/// Where etcd is: the address of each endpoint, and the key.
fn etcd_line(rt: impl Copy + Abort, alloc: Global, settings: &Settings) -> String {
    let mut line = String::new(alloc);
    if let Some(etcd) = &settings.lease.etcd {
        for endpoint in etcd.endpoints.as_slice() {
            line.push_str(endpoint.address().as_str())
                .expect(&rt, "memory");
            line.push(' ').expect(&rt, "memory");
        }
        if let Some(key) = &etcd.key {
            line.push_str(key.as_str()).expect(&rt, "memory");
        }
    }
    line
}

const ETCDS: &[(&str, &str)] = &[
    ("", ""),
    ("[lease.etcd]\n", ""),
    (
        "type = \"etcd\"\netcd.endpoints = [\"http://e1:2379\"]\n",
        "e1:2379 ",
    ),
    (
        "type = \"etcd\"\nttl = 2000\n[lease.etcd]\nkey = \"a/b c\"\nendpoints = [ # three\n'http://e1:2379', \"http://[::1]:0\",\n\"http://e1:2379\",\n]\n",
        "e1:2379 [::1]:0 e1:2379 a/b c",
    ),
    (
        "etcd = { endpoints = [\"http://e:1\"], key = \"k\" }\nttl = 1\n",
        "e:1 k",
    ),
    (
        "type = \"service\"\nservice-url = \"http://l:1\"\nttl = 1\netcd.endpoints = [\"http://e:1\"]\n",
        "e:1 ",
    ),
];

/// What the table of etcd says, also beside a lease of another type.
#[test]
fn places_of_etcd_are_read(rt: HostRuntime) {
    let alloc = rt.alloc();
    for (more, said) in ETCDS {
        let text = with_required(rt, alloc, more);
        let settings = read_settings(alloc, text.as_bytes()).expect(&rt, "settings");
        same(
            rt,
            (*more, etcd_line(rt, alloc, &settings).as_str()),
            (*more, *said),
        );
    }
}

/// A text of `count` endpoints, and a key of so many bytes.
fn etcd_text(rt: impl Copy + Abort, alloc: Global, count: usize, bytes: usize) -> String {
    let mut text = with_required(rt, alloc, "type = \"etcd\"\n[lease.etcd]\nendpoints = [");
    for _ in 0..count {
        text.push_str("\"http://e:2379\", ").expect(&rt, "memory");
    }
    text.push_str("]\nkey = \"").expect(&rt, "memory");
    for _ in 0..bytes {
        text.push('k').expect(&rt, "memory");
    }
    text.push_str("\"\n").expect(&rt, "memory");
    text
}

const ETCD_ENDS: &[(usize, usize, &str)] = &[
    (1, 1, "nothing"),
    (16, 1_000, "nothing"),
    (
        0,
        1,
        "lease.etcd.endpoints 7 an array of 1 to 16 URLs, each http://host:port",
    ),
    (
        17,
        1,
        "lease.etcd.endpoints 7 an array of 1 to 16 URLs, each http://host:port",
    ),
    (1, 0, "lease.etcd.key 8 a text of 1 to 1000 bytes"),
    (1, 1_001, "lease.etcd.key 8 a text of 1 to 1000 bytes"),
];

/// How many endpoints there are, and how long a key is.
#[test]
fn places_of_etcd_have_ends(rt: HostRuntime) {
    let alloc = rt.alloc();
    for (count, bytes, said) in ETCD_ENDS {
        let text = etcd_text(rt, alloc, *count, *bytes);
        let read = read_settings(alloc, text.as_bytes());
        same(
            rt,
            (*count, *bytes, complaint(rt, alloc, read).as_str()),
            (*count, *bytes, *said),
        );
    }
}

/// A node that takes its lease from etcd: its type, and that it is refused to one that needs no lease.
#[test]
fn a_lease_of_etcd_is_read(rt: HostRuntime) {
    let alloc = rt.alloc();
    let text = etcd_text(rt, alloc, 3, 1);
    says(
        rt,
        alloc,
        text.as_str(),
        "litefs.sock :20202 1000 false db1:20202 db1 none 10000",
    );
    let settings = read_settings(alloc, text.as_bytes()).expect(&rt, "settings");
    holds(rt, settings.lease.lease_type == LeaseType::Etcd, "its type");
    let refused = read_static_settings(alloc, text.as_bytes());
    same(
        rt,
        complaint(rt, alloc, refused).as_str(),
        "lease.type 5 static",
    );
    let beside = with_required(rt, alloc, "etcd.endpoints = [\"http://e:1\"]\n");
    let fixed = read_static_settings(alloc, beside.as_bytes());
    holds(rt, fixed.is_ok(), "a static lease");
}

const SERVICES: &[(&str, &str)] = &[
    ("", ":20202 10000"),
    ("lease.type = \"etcd\"\nlease.ttl = 1\n", ":20202 1"),
    ("lease.etcd.key = \"k\"\n", ":20202 10000"),
    (
        "lease.etcd.endpoints = [\"http://e:1\"]\nlease.ttl = 7\n",
        ":20202 7",
    ),
    ("http.addr = \"db:1\"\nlease.ttl = 7\n", "db:1 7"),
    (
        "[lease]\ntype = \"service\"\ncandidate = true\nbootstrap = true\n",
        ":20202 10000",
    ),
    (
        "proxy.addr = \":8081\"\nlease.halt-ttl = 1\n",
        ":20202 10000",
    ),
    ("proxy.target = \"h:1\"\nlease.ttl = 7\n", ":20202 7"),
    ("fuse.program = \"p\"\n", ":20202 10000"),
    ("fuse.dir = \"m\"\nlease.ttl = 7\n", ":20202 7"),
    (
        "database = \"app\"\n[fuse]\nlisten = \"s\"\n[data]\nretention-files = 3\n[lease]\nhostname = \"h\"\nadvertise-url = \"http://h:1\"\nservice-url = \"http://h:1\"\n",
        ":20202 10000",
    ),
];

/// What a lease service is told: no key is required.
#[test]
fn services_are_read(rt: HostRuntime) {
    let alloc = rt.alloc();
    for (text, said) in SERVICES {
        let settings = read_service_settings(alloc, text.as_bytes()).expect(&rt, "settings");
        same(
            rt,
            (*text, service_line(rt, alloc, &settings).as_str()),
            (*text, *said),
        );
    }
}

fn service_line(rt: impl Copy + Abort, alloc: Global, settings: &ServiceSettings) -> String {
    format!(in alloc; "{} {}", settings.http.text().as_str(), settings.ttl).expect(&rt, "memory")
}

const NO_SERVICES: &[&str] = &[
    "database = \"app-wal\"\n",
    "database = 1\n",
    "fuse.listen = 1\n",
    "http.addr = \"20202\"\n",
    "http.port = 1\n",
    "data.compress = true\n",
    "data.retention-files = 0\n",
    "lease.type = \"other\"\n",
    "lease.candidate = 1\n",
    "lease.bootstrap = 1\n",
    "lease.advertise-url = \"h:1\"\n",
    "lease.hostname = 1\n",
    "lease.service-url = \"h:1\"\n",
    "lease.ttl = 0\n",
    "lease.ttl = 86400001\n",
    "lease.promote = true\n",
    "proxy.addr = \"8081\"\n",
    "proxy.target = \":8081\"\n",
    "proxy.db = \"app\"\n",
    "fuse.dir = \"\"\n",
    "fuse.program = \"\"\n",
    "lease.halt-ttl = 0\n",
    "lease = 1\n",
    "lease.etcd = 1\n",
    "lease.etcd.endpoints = []\n",
    "lease.etcd.endpoints = \"http://e:1\"\n",
    "lease.etcd.endpoints = [\"http://e:1\", \"e:2\"]\n",
    "lease.etcd.key = \"\"\n",
    "lease.etcd.user = \"root\"\n",
    "log = \"Off\"\n",
    "log = false\n",
    "database",
];

/// Keys that a lease service doesn't need are checked where they stand.
#[test]
fn no_services_are_refused(rt: HostRuntime) {
    let alloc = rt.alloc();
    for text in NO_SERVICES {
        let read = read_service_settings(alloc, text.as_bytes());
        holds(rt, matches!(read, Err(SettingsRefusal::Config(_))), text);
    }
}

const OTHER_FORMS: &[(&str, &str)] = &[
    (
        "lease.hostname = \"\"\nlease.advertise-url = 'http://h:1'\nfuse.listen = \"s\"\ndatabase = \"app\"\n",
        "s :20202 1000 false h:1  none 10000",
    ),
    (
        "database = \"app\"\nlease = { hostname = \"h\", advertise-url = \"http://h:1\", ttl = 7 }\r\n",
        "litefs.sock :20202 1000 false h:1 h none 7",
    ),
];

/// The same keys in other forms of TOML.
#[test]
fn other_forms_are_read(rt: HostRuntime) {
    let alloc = rt.alloc();
    for (text, said) in OTHER_FORMS {
        says(rt, alloc, text, said);
    }
}

const FURTHER: &[&str] = &[
    "type = \"service\"\n",
    "type = \"service\"\nservice-url = \"lease:20202\"\n",
    "type = \"service\"\nservice-url = 1\n",
    "type = \"Service\"\nservice-url = \"http://lease:20202\"\n",
    "type = \"Static\"\n",
    "type = 1\n",
    "candidate = 1\n",
    "candidate = \"true\"\n",
    "bootstrap = 1\n",
    "bootstrap = \"true\"\n",
    "ttl = 0\n",
    "ttl = 86400001\n",
    "ttl = -1\n",
    "ttl = 1.0\n",
    "ttl = \"10\"\n",
    "halt-ttl = 0\n",
    "halt-ttl = 86400001\n",
    "halt-ttl = \"10\"\n",
    "service-url = \"lease:20202\"\n",
    "service-url = \"https://lease:20202\"\n",
    "promote = true\n",
    "type = \"etcd\"\n",
    "type = \"Etcd\"\netcd.endpoints = [\"http://e:1\"]\n",
    "etcd.key = \"k\"\n",
    "etcd = []\n",
    "[[lease.etcd]]\n",
    "[etcd]\nendpoints = [\"http://e:1\"]\n",
    "etcd.endpoints = [\"http://e:1\", [\"http://e:1\"]]\n",
    "etcd.endpoints = [\"http://:1\"]\n",
    "etcd.endpoints = [\"http://e\"]\n",
    "etcd.endpoints = [\"http://e:1/v3\"]\n",
    "etcd.endpoints = [\"http://e:1\"]\netcd.key = 1\n",
    "hostname = \"twice\"\n",
    "[fuse]\nlisten = 1\n",
    "[fuse]\ndir = \"\"\n",
    "[fuse]\ndir = 1\n",
    "[fuse]\nprogram = \"p\"\n",
    "[fuse]\ndir = \"m\"\nprogram = \"\"\n",
    "[fuse]\ndir = \"m\"\nprogram = 1\n",
    "[fuse]\ndir = \"m\"\nallow-other = true\n",
    "[http]\naddr = \"20202\"\n",
    "[http]\naddr = \":65536\"\n",
    "[http]\naddr = \":+80\"\n",
    "[http]\naddr = \": 80\"\n",
    "[http]\naddr = \"localhost:\"\n",
    "[http]\naddr = \"a b:80\"\n",
    "[http]\naddr = \"a:b:80\"\n",
    "[http]\naddr = \"[::1:80\"\n",
    "[http]\naddr = \"[]:80\"\n",
    "[http]\naddr = 20202\n",
    "[data]\ncompress = true\n",
    "[data]\ncompress = \"false\"\n",
    "[data]\nretention-files = 0\n",
    "[data]\nretention-files = \"10\"\n",
    "[data]\ndir = \"/var/lib/litefs\"\n",
    "[proxy]\naddr = \":8081\"\n",
    "[proxy]\ntarget = \"h:1\"\n",
    "[proxy]\naddr = \":8081\"\ntarget = \":1\"\n",
    "[proxy]\naddr = \":8081\"\ntarget = \"h\"\n",
    "[proxy]\naddr = \":8081\"\ntarget = \"http://h:1\"\n",
    "[proxy]\naddr = \":8081\"\ntarget = 1\n",
    "[proxy]\naddr = \"8081\"\ntarget = \"h:1\"\n",
    "[proxy]\naddr = \":8081\"\ntarget = \"h:1\"\ndb = \"app\"\n",
    "[[proxy]]\naddr = \":8081\"\ntarget = \"h:1\"\n",
    "[fuse]\n[fuse]\n",
];

/// Behind the required keys: another key, another kind, and a value outside its rule.
#[test]
fn further_keys_are_refused(rt: HostRuntime) {
    let alloc = rt.alloc();
    for more in FURTHER {
        holds(
            rt,
            is_refused(alloc, with_required(rt, alloc, more).as_bytes()),
            more,
        );
    }
}

const REFUSED: &[&[u8]] = &[
    b"",
    b"database",
    b"database = \"app\"\n",
    b"database = \"app\"\n[lease]\nhostname = \"h\"\n",
    b"database = \"app\"\n[lease]\nadvertise-url = \"http://h:1\"\n",
    b"[lease]\nadvertise-url = \"http://h:1\"\nhostname = \"h\"\n",
    b"database = 5\n[lease]\nadvertise-url = \"http://h:1\"\nhostname = \"h\"\n",
    b"database = \"app-wal\"\n[lease]\nadvertise-url = \"http://h:1\"\nhostname = \"h\"\n",
    b"database = \"app\"\nfuse = \"s\"\n[lease]\nadvertise-url = \"http://h:1\"\nhostname = \"h\"\n",
    b"database = \"app\"\nlease = \"static\"\n",
    b"database = \"app\"\n[lease]\nadvertise-url = \"http://:1\"\nhostname = \"h\"\n",
    b"database = \"app\"\n[lease]\nadvertise-url = \"http://h\"\nhostname = \"h\"\n",
    b"database = \"app\"\n[lease]\nadvertise-url = \"http://h:1/\"\nhostname = \"h\"\n",
    b"database = \"app\"\n[lease]\nadvertise-url = \"http://h:1\"\nhostname = \"\xff\"\n",
];

/// Texts without a required key, and texts that are no TOML.
#[test]
fn texts_are_refused(rt: HostRuntime) {
    let alloc = rt.alloc();
    for bytes in REFUSED {
        same(rt, (*bytes, is_refused(alloc, bytes)), (*bytes, true));
    }
}

fn is_refused(alloc: Global, bytes: &[u8]) -> bool {
    judged(alloc, bytes).1
}

/// Whether a text is a configuration, and whether it is refused as none.
fn judged(alloc: Global, bytes: &[u8]) -> (bool, bool) {
    let read = read_settings(alloc, bytes);
    (
        read.is_ok(),
        matches!(read, Err(SettingsRefusal::Config(_))),
    )
}

/// What is complained of: the key, its line, and what was wanted.
fn complaint<T: Drop>(
    rt: impl Copy + Abort,
    alloc: Global,
    read: Result<T, SettingsRefusal>,
) -> String {
    match read {
        Err(SettingsRefusal::Config(complaint)) => said(rt, alloc, &complaint),
        _ => String::from_str(alloc, "nothing").expect(&rt, "memory"),
    }
}

fn said(rt: impl Copy + Abort, alloc: Global, complaint: &Complaint) -> String {
    format!(in alloc;
        "{} {} {}",
        complaint.key().unwrap_or("none"),
        complaint.line().unwrap_or(0),
        complaint.wanted()
    )
    .expect(&rt, "memory")
}

/// Behind the required keys, which are four lines: the key complained of, its line (0 is none), and
/// what was wanted.
const COMPLAINTS: &[(&str, &str)] = &[
    (
        "ttl = 0\n",
        "lease.ttl 5 a number of milliseconds from 1 to 86400000",
    ),
    (
        "# the lease\n\nservice-url = \"http://h:1\"\nttl = 86400001 # a day\n",
        "lease.ttl 8 a number of milliseconds from 1 to 86400000",
    ),
    // Both are broken: the key that comes first in the table of keys.
    (
        "ttl = 0\ncandidate = 1\n",
        "lease.candidate 6 true or false",
    ),
    (
        "ttl = 0\nbootstrap = 1\n",
        "lease.bootstrap 6 true or false",
    ),
    ("hostname.a = 1\n", "none 5 TOML in UTF-8"),
    ("hostname = \"twice\"\n", "none 5 TOML in UTF-8"),
    ("\r\n[data\r\n", "none 6 TOML in UTF-8"),
    ("promote = true\n", "lease.promote 5 no key of this name"),
    ("\"a b\" = true\n", "lease.? 5 no key of this name"),
    ("\n\n[cache]\nsize = 1\n", "cache 7 no key of this name"),
    (
        "halt-ttl = 0\n",
        "lease.halt-ttl 5 a number of milliseconds from 1 to 86400000",
    ),
    (
        "[fuse]\nlisten = \"s\"\ndir = \"\"\n",
        "fuse.dir 7 a path that is not empty",
    ),
    (
        "[fuse]\nprogram = 1\n",
        "fuse.dir 0 a path, since fuse.program is there; the key is missing",
    ),
    (
        "[fuse]\nprogram = 1\ndir = \"m\"\n",
        "fuse.program 6 a path that is not empty",
    ),
    (
        "[fuse]\ndir = \"m\"\nallow-other = true\n",
        "fuse.allow-other 7 no key of this name",
    ),
    (
        "[proxy]\ntarget = 1\n",
        "proxy.addr 0 an address, host:port, since proxy.target is there; the key is missing",
    ),
    (
        "[proxy]\naddr = \":1\"\n",
        "proxy.target 0 an address with a host, host:port, since proxy.addr is there; the key is missing",
    ),
    (
        "[proxy]\ntarget = \":1\"\naddr = \"1\"\n",
        "proxy.addr 7 an address, host:port",
    ),
    (
        "[proxy]\ntarget = \":1\"\naddr = \":1\"\n",
        "proxy.target 6 an address with a host, host:port",
    ),
    (
        "[proxy]\npassthrough = 1\n",
        "proxy.passthrough 6 no key of this name",
    ),
    ("[[fuse]]\nlisten = \"s\"\n", "fuse 5 a table"),
    ("[fuse]\nlisten = 1\n", "fuse.listen 6 a text"),
    (
        "[http]\naddr = '''\n:1x'''\n",
        "http.addr 6 an address, host:port",
    ),
    ("[data]\ncompress = true\n", "data.compress 6 false"),
    (
        "[data]\nretention-files = 0\n",
        "data.retention-files 6 a number from 1 to 9223372036854775807",
    ),
    (
        "type = \"other\"\n",
        "lease.type 5 static, service or etcd, as a text",
    ),
    (
        "type = \"service\"\n",
        "lease.service-url 0 a URL, http://host:port, since lease.type is service; the key is missing",
    ),
    (
        "service-url = \"h:1\"\n",
        "lease.service-url 5 a URL, http://host:port",
    ),
    (
        "type = \"etcd\"\n",
        "lease.etcd.endpoints 0 an array of 1 to 16 URLs, each http://host:port, since lease.type is etcd; the key is missing",
    ),
    (
        "[lease.etcd]\nkey = \"\"\n",
        "lease.etcd.endpoints 0 an array of 1 to 16 URLs, each http://host:port, since lease.etcd.key is there; the key is missing",
    ),
    // The time is said behind the type, and in front of the table.
    (
        "type = \"etcd\"\nttl = 1999\n",
        "lease.ttl 6 a number of milliseconds from 2000 to 86400000, since lease.type is etcd",
    ),
    (
        "type = \"etcd\"\nttl = 0\n",
        "lease.ttl 6 a number of milliseconds from 1 to 86400000",
    ),
    (
        "[lease.etcd]\nendpoints = [\"http://e:1\",\n\"https://e:1\"]\n",
        "lease.etcd.endpoints 6 an array of 1 to 16 URLs, each http://host:port",
    ),
    (
        "etcd.endpoints = [\"http://e:1\"]\n\netcd.key = true\n",
        "lease.etcd.key 7 a text of 1 to 1000 bytes",
    ),
    (
        "[lease.etcd]\nendpoints = [\"http://e:1\"]\nuser = \"root\"\n",
        "lease.etcd.user 7 no key of this name",
    ),
    (
        "etcd.ca-file = \"ca.pem\"\n",
        "lease.etcd.ca-file 5 no key of this name",
    ),
    ("[[lease.etcd]]\n", "lease.etcd 5 a table"),
];

const WHOLE_COMPLAINTS: &[(&str, &str)] = &[
    ("", "database 0 the name of a database; the key is missing"),
    ("database = 1\n", "database 1 the name of a database"),
    (
        "database = \"app\"\nlog = true\n",
        "log 2 on or off, as a text",
    ),
    ("database = \"app\"\n\nlease = 1\n", "lease 3 a table"),
    (
        "database = \"app\"\n[lease]\nhostname = \"h\"\n",
        "lease.advertise-url 0 a URL, http://host:port; the key is missing",
    ),
    (
        "database = \"app\"\n[lease]\nadvertise-url = \"http://h:1\"\n",
        "lease.hostname 0 a text; the key is missing",
    ),
    (
        "database = \"app\"\n[lease]\nhostname = 1\nadvertise-url = \"h:1\"\n",
        "lease.advertise-url 4 a URL, http://host:port",
    ),
    // A statement of several lines is said by its first.
    (
        "database = \"app\"\nlease = {\n  hostname = \"h\",\n  advertise-url = \"http://h:1\",\n  ttl = 0,\n}\n",
        "lease.ttl 2 a number of milliseconds from 1 to 86400000",
    ),
    (
        "database = \"app\"\nlease = {\n  hostname = \"h\n",
        "none 2 TOML in UTF-8",
    ),
];

/// What is complained of in a text that is refused.
#[test]
fn complaints_are_said(rt: HostRuntime) {
    let alloc = rt.alloc();
    for (more, said) in COMPLAINTS {
        let read = read_settings(alloc, with_required(rt, alloc, more).as_bytes());
        same(
            rt,
            (*more, complaint(rt, alloc, read).as_str()),
            (*more, *said),
        );
    }
    for (text, said) in WHOLE_COMPLAINTS {
        let read = read_settings(alloc, text.as_bytes());
        same(
            rt,
            (*text, complaint(rt, alloc, read).as_str()),
            (*text, *said),
        );
    }
}

const SERVICE_COMPLAINTS: &[(&str, &str)] = &[
    ("\n# no database\nlog = 1\n", "log 3 on or off, as a text"),
    (
        "http.addr = \"20202\"\n",
        "http.addr 1 an address, host:port",
    ),
    (
        "[lease]\nttl = 0\nhostname = 1\n",
        "lease.hostname 3 a text",
    ),
    (
        "proxy.target = \":1\"\nfuse.program = \"\"\n",
        "fuse.program 2 a path that is not empty",
    ),
    (
        "lease.etcd.endpoints = [\"e:1\"]\nlease.etcd.key = \"\"\n",
        "lease.etcd.endpoints 1 an array of 1 to 16 URLs, each http://host:port",
    ),
];

/// The same in what a lease service is told.
#[test]
fn complaints_of_services_are_said(rt: HostRuntime) {
    let alloc = rt.alloc();
    for (text, said) in SERVICE_COMPLAINTS {
        let read = read_service_settings(alloc, text.as_bytes());
        same(
            rt,
            (*text, complaint(rt, alloc, read).as_str()),
            (*text, *said),
        );
    }
}

/// A text that is too long, and bytes that are no UTF-8.
#[test]
fn complaints_of_whole_texts_are_said(rt: HostRuntime) {
    let alloc = rt.alloc();
    let long = vec![in alloc; b' '; 65_537].expect(&rt, "memory");
    let read = read_settings(alloc, long.as_slice());
    same(
        rt,
        complaint(rt, alloc, read).as_str(),
        "none 0 at most 65536 bytes",
    );
    let read = read_settings(alloc, b"database = \"app\"\n# \xff\n");
    same(
        rt,
        complaint(rt, alloc, read).as_str(),
        "none 2 TOML in UTF-8",
    );
}

const LOGS: &[(&str, bool)] = &[
    ("", true),
    ("log = \"on\"\n", true),
    ("log = \"off\"\n", false),
    ("log = 'off' # quiet\n", false),
];

/// Whether a node, and a lease service, says what happens.
#[test]
fn logs_are_read(rt: HostRuntime) {
    let alloc = rt.alloc();
    for (text, log) in LOGS {
        let service = read_service_settings(alloc, text.as_bytes()).expect(&rt, "settings");
        same(rt, service.log, *log);
        let mut whole = String::from_str(alloc, text).expect(&rt, "memory");
        whole.push_str(REQUIRED).expect(&rt, "memory");
        let settings = read_settings(alloc, whole.as_bytes()).expect(&rt, "settings");
        same(rt, settings.log, *log);
    }
}

/// A configuration has at most 65,536 bytes.
#[test]
fn configurations_have_an_end(rt: HostRuntime) {
    let alloc = rt.alloc();
    for (size, taken) in [(65_536usize, true), (65_537, false)] {
        let mut bytes = Vec::from_slice(alloc, REQUIRED.as_bytes()).expect(&rt, "memory");
        bytes.push(b'#').expect(&rt, "memory");
        bytes.resize(size, b' ').expect(&rt, "memory");
        same(rt, judged(alloc, bytes.as_slice()), (taken, !taken));
    }
}
