//! Whether two requests or two replies are the same.
ghost use Rattle.std.specs.Prelude.{◌≡◌, ◌↔◌, IsTrue};

use crate::reply::Reply;
use crate::request::{Op, Request};
use lf_base::Bytes;

impl Request {
    /// Whether the other is the same request.
    pub fn equals(&self, other: &Request) -> bool
        ensures { IsTrue result ↔ (self.now ≡ other.now) }
    {
        self.unique == other.unique
            && self.node == other.node
            && self.pid == other.pid
            && self.op.equals(&other.op)
    }
}

impl Op {
    /// Whether the other is the same operation.
    pub fn equals(&self, other: &Op) -> bool
        ensures { IsTrue result ↔ (self.now ≡ other.now) }
    {
        match (self, other) {
            (Op::Lookup { name: name1 }, Op::Lookup { name: name2 }) => same_bytes(name1, name2),
            (Op::Forget, Op::Forget) => true,
            (Op::Getattr, Op::Getattr) => true,
            (
                Op::Setattr {
                    size: size1,
                    owner: owner1,
                },
                Op::Setattr {
                    size: size2,
                    owner: owner2,
                },
            ) => size1 == size2 && owner1 == owner2,
            (Op::Unlink { name: name1 }, Op::Unlink { name: name2 }) => same_bytes(name1, name2),
            (Op::Open, Op::Open) => true,
            (
                Op::Read {
                    fh: fh1,
                    at: at1,
                    size: size1,
                    owner: owner1,
                },
                Op::Read {
                    fh: fh2,
                    at: at2,
                    size: size2,
                    owner: owner2,
                },
            ) => fh1 == fh2 && at1 == at2 && size1 == size2 && owner1 == owner2,
            (
                Op::Write {
                    fh: fh1,
                    at: at1,
                    owner: owner1,
                    bytes: bytes1,
                },
                Op::Write {
                    fh: fh2,
                    at: at2,
                    owner: owner2,
                    bytes: bytes2,
                },
            ) => fh1 == fh2 && at1 == at2 && owner1 == owner2 && same_bytes(bytes1, bytes2),
            (
                Op::Release {
                    fh: fh1,
                    owner: owner1,
                },
                Op::Release {
                    fh: fh2,
                    owner: owner2,
                },
            ) => fh1 == fh2 && owner1 == owner2,
            (Op::Fsync { fh: fh1 }, Op::Fsync { fh: fh2 }) => fh1 == fh2,
            (
                Op::Flush {
                    fh: fh1,
                    owner: owner1,
                },
                Op::Flush {
                    fh: fh2,
                    owner: owner2,
                },
            ) => fh1 == fh2 && owner1 == owner2,
            (
                Op::Init {
                    major: major1,
                    minor: minor1,
                },
                Op::Init {
                    major: major2,
                    minor: minor2,
                },
            ) => major1 == major2 && minor1 == minor2,
            (
                Op::Getlk {
                    fh: fh1,
                    owner: owner1,
                    start: start1,
                    end: end1,
                    kind: kind1,
                },
                Op::Getlk {
                    fh: fh2,
                    owner: owner2,
                    start: start2,
                    end: end2,
                    kind: kind2,
                },
            ) => fh1 == fh2
                && owner1 == owner2
                && start1 == start2
                && end1 == end2
                && kind1 == kind2,
            (
                Op::Setlk {
                    fh: fh1,
                    owner: owner1,
                    start: start1,
                    end: end1,
                    kind: kind1,
                },
                Op::Setlk {
                    fh: fh2,
                    owner: owner2,
                    start: start2,
                    end: end2,
                    kind: kind2,
                },
            ) => fh1 == fh2
                && owner1 == owner2
                && start1 == start2
                && end1 == end2
                && kind1 == kind2,
            (
                Op::Setlkw {
                    fh: fh1,
                    owner: owner1,
                    start: start1,
                    end: end1,
                    kind: kind1,
                },
                Op::Setlkw {
                    fh: fh2,
                    owner: owner2,
                    start: start2,
                    end: end2,
                    kind: kind2,
                },
            ) => fh1 == fh2
                && owner1 == owner2
                && start1 == start2
                && end1 == end2
                && kind1 == kind2,
            (Op::Create { name: name1 }, Op::Create { name: name2 }) => same_bytes(name1, name2),
            (Op::Destroy, Op::Destroy) => true,
            _ => false,
        }
    }
}

impl Reply {
    /// Whether the other is the same reply.
    pub fn equals(&self, other: &Reply) -> bool
        ensures { IsTrue result ↔ (self.now ≡ other.now) }
    {
        match (self, other) {
            (
                Reply::Entry {
                    node: node1,
                    size: size1,
                },
                Reply::Entry {
                    node: node2,
                    size: size2,
                },
            ) => node1 == node2 && size1 == size2,
            (
                Reply::Attr {
                    node: node1,
                    size: size1,
                },
                Reply::Attr {
                    node: node2,
                    size: size2,
                },
            ) => node1 == node2 && size1 == size2,
            (Reply::Opened { fh: fh1 }, Reply::Opened { fh: fh2 }) => fh1 == fh2,
            (Reply::Bytes { bytes: bytes1 }, Reply::Bytes { bytes: bytes2 }) => same_bytes(
                bytes1, bytes2,
            ),
            (Reply::Written { size: size1 }, Reply::Written { size: size2 }) => size1 == size2,
            (Reply::Init, Reply::Init) => true,
            (
                Reply::Lock {
                    start: start1,
                    end: end1,
                    kind: kind1,
                },
                Reply::Lock {
                    start: start2,
                    end: end2,
                    kind: kind2,
                },
            ) => start1 == start2 && end1 == end2 && kind1 == kind2,
            (
                Reply::Created {
                    node: node1,
                    size: size1,
                    fh: fh1,
                },
                Reply::Created {
                    node: node2,
                    size: size2,
                    fh: fh2,
                },
            ) => node1 == node2 && size1 == size2 && fh1 == fh2,
            (Reply::Empty, Reply::Empty) => true,
            (Reply::Error(a), Reply::Error(b)) => a == b,
            _ => false,
        }
    }
}

fn same_bytes(a: &Bytes, b: &Bytes) -> bool
    ensures { IsTrue result ↔ (a.now ≡ b.now) }
{
    a.as_slice() == b.as_slice()
}
