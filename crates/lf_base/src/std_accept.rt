//! Acceptors over the system's listeners. They wait for a link, and look at the closing word before and behind.
ghost use Rattle.std.specs.Prelude.{◌≡◌, ◌==◌, not, false, IfOk};

use crate::acceptor::Acceptor;
use crate::closing::Closing;
use crate::door::Door;
use crate::handles::Handles;
use crate::polling_stream::PollingStream;
use crate::source::Failed;
use crate::stream_link::{StreamLink, TcpLink, UnixLink};
use crate::text::Text;
use crate::watched_stream::WatchedStream;
use std::io;
use std::net::{TcpListener, TcpStream};
use std::os::unix::net::{UnixListener, UnixStream};
use std::sync::Wait;

/// A listener of the system.
trait Listen {
    type Stream: Drop;

    fn next(&self) -> io::Result<Self::Stream>;
}

impl Listen for TcpListener {
    type Stream = TcpStream;

    fn next(&self) -> io::Result<TcpStream> {
        let (stream, _) = self.accept()?;
        Ok(stream)
    }
}

impl Listen for UnixListener {
    type Stream = UnixStream;

    fn next(&self) -> io::Result<UnixStream> {
        let (stream, _) = self.accept()?;
        Ok(stream)
    }
}

/// The next stream, or `None` once the word is closed. A stream that comes then is hung up.
fn next_stream<T: Listen>(listener: &T, closing: &Closing) -> io::Result<Option<T::Stream>> {
    if closing.is_closed() {
        return Ok(None);
    }
    let stream = listener.next()?;
    if closing.is_closed() {
        return Ok(None);
    }
    Ok(Some(stream))
}

/// An acceptor over a TCP listener.
#[derive(Drop)]
pub struct TcpAccept {
    listener: TcpListener,
    closing: Closing,
    patience: u64,
    faults: u64,
    given: u64,
    ended: bool,
}

impl TcpAccept {
    /// It gives links until the word is closed and its door was knocked at.
    pub fn new<R: Wait>(
        rt: &R,
        listener: TcpListener,
        closing: Closing,
    ) -> Result<TcpAccept, Failed>
        ensures faults { IfOk result (λ a. a.faults ≡ 0) }
        ensures open { IfOk result (λ a. (a.given ≡ 0) × (a.ended ≡ false)) }
    {
        let Ok(address) = listener.local_addr() else {
            return Err(Failed);
        };
        if closing.add_door(rt, Door::Address(address)).is_err() {
            return Err(Failed);
        }
        Ok(TcpAccept {
            listener,
            closing,
            patience: 0,
            faults: 0,
            given: 0,
            ended: false,
        })
    }

    /// Its links fail where a read or a write waits longer than so many milliseconds. 0 is no limit.
    pub fn patient(self, patience: u64) -> TcpAccept
        ensures { result ≡ record self { patience = patience } }
    {
        TcpAccept { patience, ..self }
    }

    /// Whether its count of faults is not 0.
    pub fn has_failed(&self) -> bool
        ensures { result ≡ not (self.now.faults == 0) }
    {
        self.faults != 0
    }
}

impl Acceptor for TcpAccept {
    type L = TcpLink;

    ghost faults = { λ a. a.faults };

    ghost ended = { λ a. a.ended };

    ghost given = { λ a. a.given };

    fn accept<R: Handles>(&mut self, _rt: &R) -> Result<Option<TcpLink>, Failed> {
        if self.ended {
            return Ok(None);
        }
        match next_stream(&self.listener, &self.closing) {
            Ok(Some(stream)) => {
                self.given = self.given.saturating_add(1);
                let peer = stream.peer_addr().ok();
                let stream = WatchedStream::new(stream, self.patience);
                Ok(Some(StreamLink::new(stream).with_peer(peer)))
            }
            Ok(None) => {
                self.ended = true;
                Ok(None)
            }
            Err(_) => {
                self.faults = self.faults.saturating_add(1);
                Err(Failed)
            }
        }
    }
}

/// An acceptor over the listener of a Unix socket.
#[derive(Drop)]
pub struct UnixAccept {
    listener: UnixListener,
    closing: Closing,
    faults: u64,
    given: u64,
    ended: bool,
}

impl UnixAccept {
    /// It gives links until the word is closed and its door, a socket of this path, was knocked at.
    pub fn new<R: Wait>(
        rt: &R,
        listener: UnixListener,
        path: Text,
        closing: Closing,
    ) -> Result<UnixAccept, Failed>
        ensures faults { IfOk result (λ a. a.faults ≡ 0) }
        ensures open { IfOk result (λ a. (a.given ≡ 0) × (a.ended ≡ false)) }
    {
        if closing.add_door(rt, Door::Path(path)).is_err() {
            return Err(Failed);
        }
        Ok(UnixAccept {
            listener,
            closing,
            faults: 0,
            given: 0,
            ended: false,
        })
    }

    /// Whether its count of faults is not 0.
    pub fn has_failed(&self) -> bool
        ensures { result ≡ not (self.now.faults == 0) }
    {
        self.faults != 0
    }
}

impl Acceptor for UnixAccept {
    type L = UnixLink;

    ghost faults = { λ a. a.faults };

    ghost ended = { λ a. a.ended };

    ghost given = { λ a. a.given };

    fn accept<R: Handles>(&mut self, _rt: &R) -> Result<Option<UnixLink>, Failed> {
        if self.ended {
            return Ok(None);
        }
        match next_stream(&self.listener, &self.closing) {
            Ok(Some(stream)) => {
                self.given = self.given.saturating_add(1);
                let stream = PollingStream::new(stream);
                Ok(Some(StreamLink::new(stream)))
            }
            Ok(None) => {
                self.ended = true;
                Ok(None)
            }
            Err(_) => {
                self.faults = self.faults.saturating_add(1);
                Err(Failed)
            }
        }
    }
}
