use std::net::{Net, TcpListener, TcpStream};
use std::sync::Wait;
use std::thread::Threads;
use std::time;

/// The runtime as the calls of the outside take it: it starts threads, waits, opens sockets and
/// tells the time.
pub trait Handles: Threads + Wait + Net<Listener = TcpListener, Stream = TcpStream> + time::Clock {}

impl<R: Threads + Wait + Net<Listener = TcpListener, Stream = TcpStream> + time::Clock> Handles
    for R {}
