ghost use Rattle.std.specs.Prelude.{◌≡◌, ◌==◌, not, None};
ghost use Rattle.node_objects.specs.Dialing.{faults_of, moves_of};

use lf_base::{Failed, Link, TcpLink, UnixLink};
use std::net::SocketAddr;

/// A link of the system. It tells its counts alone.
#[derive(Drop)]
pub enum SystemLine {
    Tcp(TcpLink),
    /// Over a Unix socket.
    Unix(UnixLink),
}

impl SystemLine {
    /// Whether its count of faults is not 0.
    pub fn has_failed(&self) -> bool
        ensures { result ≡ not (faults_of self.now == 0) }
    {
        match self {
            SystemLine::Tcp(link) => link.has_failed(),
            SystemLine::Unix(link) => link.has_failed(),
        }
    }
}

impl Link for SystemLine {
    ghost left = { λ _. None };

    ghost given = { λ _. None };

    ghost taken = { λ _. None };

    ghost faults = { faults_of };

    ghost moves = { moves_of };

    fn read(&mut self, out: &mut [u8]) -> Result<usize, Failed> {
        match self {
            SystemLine::Tcp(link) => link.read(out),
            SystemLine::Unix(link) => link.read(out),
        }
    }

    fn write(&mut self, piece: &[u8]) -> Result<usize, Failed> {
        match self {
            SystemLine::Tcp(link) => link.write(piece),
            SystemLine::Unix(link) => link.write(piece),
        }
    }

    fn peer(&self) -> Option<SocketAddr> {
        match self {
            SystemLine::Tcp(link) => link.peer(),
            SystemLine::Unix(link) => link.peer(),
        }
    }
}
