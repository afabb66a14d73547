ghost use Rattle.std.specs.Prelude.{◌≡◌, ◌==◌, not, None};

use crate::dialer::Dialer;
use crate::handles::Handles;
use crate::source::Failed;
use crate::stream_link::{StreamLink, TcpLink};
use crate::text::Text;
use crate::watched_stream::WatchedStream;
use std::io;
use std::net::{TcpStream, ToSocketAddrs};
use std::time::Duration;

/// A dialer over TCP.
#[derive(Debug, Drop)]
pub struct TcpDial {
    faults: u64,
    patience: u64,
}

impl TcpDial {
    /// It waits for as long as it takes.
    pub fn new() -> TcpDial
        ensures { result.faults ≡ 0 }
    {
        TcpDial {
            faults: 0,
            patience: 0,
        }
    }

    /// It fails where it waits longer than so many milliseconds for an address to answer, and so do its
    /// links where a read or a write does. 0 is no limit.
    pub fn patient(self, patience: u64) -> TcpDial
        ensures { result ≡ record self { patience = patience } }
    {
        TcpDial { patience, ..self }
    }

    /// Whether its count of faults is not 0.
    pub fn has_failed(&self) -> bool
        ensures { result ≡ not (self.now.faults == 0) }
    {
        self.faults != 0
    }
}

impl Dialer for TcpDial {
    type L = TcpLink;

    ghost faults = { λ d. d.faults };

    ghost dials = { λ _. None };

    fn dial<R: Handles>(&mut self, rt: &R, address: &Text) -> Result<TcpLink, Failed> {
        match connected(rt, address, self.patience) {
            Ok(stream) => Ok(StreamLink::new(WatchedStream::new(stream, self.patience))),
            Err(_) => {
                self.faults = self.faults.saturating_add(1);
                Err(Failed)
            }
        }
    }

    fn hang_up(&mut self, link: TcpLink) {
        if link.has_failed() {
            self.faults = self.faults.saturating_add(1);
        }
    }

    fn another(&self) -> TcpDial {
        TcpDial::new().patient(self.patience)
    }
}

/// A stream to this address. Of several, each is given so many milliseconds; 0 is no limit.
fn connected<R: Handles>(rt: &R, address: &Text, patience: u64) -> io::Result<TcpStream> {
    if patience == 0 {
        return TcpStream::connect(rt, address.as_str());
    }
    let limit = Duration::from_millis(patience);
    for address in address.as_str().to_socket_addrs(rt)? {
        if let Ok(stream) = TcpStream::connect_timeout(rt, &address, limit) {
            return Ok(stream);
        }
    }
    Err(io::ErrorKind::NotFound.into())
}
