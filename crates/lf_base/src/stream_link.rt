ghost use Rattle.std.specs.Prelude.{◌≡◌, ◌==◌, not, None};

use crate::link::Link;
use crate::polling_stream::PollingStream;
use crate::source::Failed;
use crate::watched_stream::WatchedStream;
use std::io;
use std::net::SocketAddr;

/// A stream of the system as a link. It tells its counts alone: of what the other end sends and gets
/// no contract knows.
#[derive(Drop)]
pub struct StreamLink<S: io::Read + io::Write> {
    stream: S,
    peer: Option<SocketAddr>,
    faults: u64,
    moves: u64,
}

/// A TCP stream as a link. A write of no bytes finds out whether its peer is gone.
pub type TcpLink = StreamLink<WatchedStream>;

/// A stream of a Unix socket as a link.
pub type UnixLink = StreamLink<PollingStream>;

impl<S: io::Read + io::Write> StreamLink<S> {
    pub fn new(stream: S) -> StreamLink<S>
        ensures faults { result.faults ≡ 0 }
        ensures moves { result.moves ≡ 0 }
    {
        StreamLink {
            stream,
            peer: None,
            faults: 0,
            moves: 0,
        }
    }

    /// It says that this one is at its other end.
    pub fn with_peer(self, peer: Option<SocketAddr>) -> StreamLink<S>
        ensures { result ≡ record self { peer = peer } }
    {
        StreamLink { peer, ..self }
    }

    /// Whether its count of faults is not 0.
    pub fn has_failed(&self) -> bool
        ensures { result ≡ not (self.now.faults == 0) }
    {
        self.faults != 0
    }
}

impl<S: io::Read + io::Write> Link for StreamLink<S> {
    ghost left = { λ _. None };

    ghost given = { λ _. None };

    ghost taken = { λ _. None };

    ghost faults = { λ l. l.faults };

    ghost moves = { λ l. l.moves };

    fn read(&mut self, out: &mut [u8]) -> Result<usize, Failed> {
        let Ok(count) = self.stream.read(out) else {
            self.faults = self.faults.saturating_add(1);
            return Err(Failed);
        };
        self.moves = self.moves.saturating_add(count.min(1) as u64);
        Ok(count)
    }

    /// A write of a piece with bytes that takes none of them is a fault too.
    fn write(&mut self, piece: &[u8]) -> Result<usize, Failed> {
        match self.stream.write(piece) {
            Ok(count) if count > 0 || piece.is_empty() => {
                self.moves = self.moves.saturating_add(count.min(1) as u64);
                Ok(count)
            }
            _ => {
                self.faults = self.faults.saturating_add(1);
                Err(Failed)
            }
        }
    }

    fn peer(&self) -> Option<SocketAddr> {
        self.peer
    }
}
