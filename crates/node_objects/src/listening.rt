//! The sockets that a node listens on.
use crate::obstacle::Obstacle;
use crate::system::System;
use std::fs;
use std::io::ErrorKind;
use std::net::TcpListener;
use std::os::unix::fs::FileTypeExt;
use std::os::unix::net::{UnixListener, UnixStream};

/// The most bytes of a path of a Unix socket (unix(7)).
const PATH_MAX: usize = 107;

/// Listens on the Unix socket of this path. The socket file that a process left behind is replaced.
/// Where one still answers there, or another file has the path, nothing is changed.
pub fn listen_at<R: System>(rt: &R, path: &str) -> Result<UnixListener, Option<Obstacle>> {
    if path.len() > PATH_MAX {
        return Err(Some(Obstacle::TooLong));
    }
    match UnixListener::bind(rt, path) {
        Ok(listener) => Ok(listener),
        Err(error) if error.kind() == ErrorKind::AddrInUse => listen_again(rt, path),
        Err(error) => Err(Obstacle::of(&error)),
    }
}

/// Listens on the path of a socket on which nobody listens.
fn listen_again<R: System>(rt: &R, path: &str) -> Result<UnixListener, Option<Obstacle>> {
    if !is_socket(rt, path) {
        return Err(Some(Obstacle::NoSocket));
    }
    if !is_refused(rt, path) {
        return Err(Some(Obstacle::InUse));
    }
    if let Err(error) = fs::remove_file(rt, path) {
        return Err(Obstacle::of(&error));
    }
    match UnixListener::bind(rt, path) {
        Ok(listener) => Ok(listener),
        Err(error) => Err(Obstacle::of(&error)),
    }
}

fn is_socket<R: System>(rt: &R, path: &str) -> bool {
    match fs::metadata(rt, path) {
        Ok(found) => found.file_type().is_socket(),
        Err(_) => false,
    }
}

/// Whether nobody answers at the socket of this path.
fn is_refused<R: System>(rt: &R, path: &str) -> bool {
    match UnixStream::connect(rt, path) {
        Ok(_) => false,
        Err(error) => error.kind() == ErrorKind::ConnectionRefused,
    }
}

/// Listens on `host:port`; without a host, on every address of the machine.
pub fn listen_on<R: System>(rt: &R, address: &str) -> Result<TcpListener, Option<Obstacle>> {
    if !address.starts_with(':') {
        return bind(rt, "", address);
    }
    match bind(rt, "[::]", address) {
        Ok(listener) => Ok(listener),
        // There may be no IPv6.
        Err(_) => bind(rt, "0.0.0.0", address),
    }
}

/// Listens on this address, behind this host.
fn bind<R: System>(rt: &R, host: &str, address: &str) -> Result<TcpListener, Option<Obstacle>> {
    let Ok(whole) = format!(in rt.alloc(); "{host}{address}") else {
        return Err(None);
    };
    match TcpListener::bind(rt, whole.as_str()) {
        Ok(listener) => Ok(listener),
        Err(error) => Err(Obstacle::of(&error)),
    }
}
