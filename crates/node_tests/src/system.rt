use crate::same::same;
use lf_base::{Closing, Name, Text};
use node_objects::{Maker, System, SystemMaker};
use std::fs;
use std::net::{TcpListener, TcpStream};
use std::os::unix::net::UnixListener;
use std::process::{Abort, ChildStderr, ChildStdin, ChildStdout, SystemProcess};

fn maker<R: System + Abort>(rt: R) -> SystemMaker<R> {
    let closing = Closing::new(rt.alloc()).expect(&rt, "memory");
    SystemMaker::new(rt, closing).expect(&rt, "a maker")
}

/// A folder is one maker's until it goes.
#[test]
fn a_data_directory_has_one_maker(rt: HostRuntime) {
    let _named: Option<(TcpListener, TcpStream)> = None;
    let _started: Option<(SystemProcess, ChildStdin, ChildStdout, ChildStderr)> = None;
    let mut one = maker(rt);
    let mut other = maker(rt);
    let name = Name::read(rt.alloc(), b"app").expect(&rt, "a name");
    same(rt, one.disk(&name).is_ok(), true);
    same(rt, other.disk(&name).is_err(), true);
    drop(one);
    same(rt, other.disk(&name).is_ok(), true);
}

/// A socket on which somebody listens stays, and so does a file that is no socket. One that was left
/// behind is replaced.
#[test]
fn a_socket_has_one_maker(rt: HostRuntime) {
    let _named: Option<(TcpListener, TcpStream)> = None;
    let _started: Option<(SystemProcess, ChildStdin, ChildStdout, ChildStderr)> = None;
    let mut maker = maker(rt);
    let path = Text::of(rt.alloc(), "node_mount_test_socket").expect(&rt, "memory");
    fs::write(&rt, path.as_str(), "text").expect(&rt, "a file");
    same(rt, maker.files(&path).is_err(), true);
    let text = fs::read_to_string(&rt, path.as_str()).expect(&rt, "the file");
    same(rt, text.as_str(), "text");
    fs::remove_file(&rt, path.as_str()).expect(&rt, "removed");
    let listener = UnixListener::bind(&rt, path.as_str()).expect(&rt, "a listener");
    same(rt, maker.files(&path).is_err(), true);
    drop(listener);
    let first = maker.files(&path);
    same(rt, first.is_ok(), true);
    same(rt, maker.files(&path).is_err(), true);
    fs::remove_file(&rt, path.as_str()).expect(&rt, "removed");
}

#[test]
fn http_listens_once_on_a_port(rt: HostRuntime) {
    let _named: Option<(TcpListener, TcpStream)> = None;
    let _started: Option<(SystemProcess, ChildStdin, ChildStdout, ChildStderr)> = None;
    let mut maker = maker(rt);
    let any = Text::of(rt.alloc(), ":0").expect(&rt, "memory");
    same(rt, maker.http(&any, 0).is_ok(), true);
    let listener = TcpListener::bind(&rt, "127.0.0.1:0").expect(&rt, "a listener");
    let address = listener.local_addr().expect(&rt, "its address");
    let taken = format!(in rt.alloc(); "{address}").expect(&rt, "memory");
    let taken = Text::of(rt.alloc(), taken.as_str()).expect(&rt, "memory");
    same(rt, maker.http(&taken, 0).is_err(), true);
}

/// A node has a number of its own, which is not 0.
#[test]
fn numbers_are_drawn(rt: HostRuntime) {
    let _named: Option<(TcpListener, TcpStream)> = None;
    let _started: Option<(SystemProcess, ChildStdin, ChildStdout, ChildStderr)> = None;
    let (one, other) = (maker(rt).node_id(), maker(rt).node_id());
    same(rt, one == 0, false);
    same(rt, one == other, false);
}

/// An address without a host is one of every address of the machine: of 127.0.0.2 too.
#[test]
fn http_listens_on_every_address(rt: HostRuntime) {
    let _started: Option<(SystemProcess, ChildStdin, ChildStdout, ChildStderr)> = None;
    let free = TcpListener::bind(&rt, "127.0.0.1:0").expect(&rt, "a listener");
    let port = free.local_addr().expect(&rt, "its address").port();
    drop(free);
    let mut maker = maker(rt);
    let address = format!(in rt.alloc(); ":{port}").expect(&rt, "memory");
    let address = Text::of(rt.alloc(), address.as_str()).expect(&rt, "memory");
    let accept = maker.http(&address, 0);
    same(rt, accept.is_ok(), true);
    let other = format!(in rt.alloc(); "127.0.0.2:{port}").expect(&rt, "memory");
    same(rt, TcpStream::connect(&rt, other.as_str()).is_ok(), true);
}
