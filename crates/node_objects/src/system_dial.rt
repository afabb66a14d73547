//! A dialer of the system.
ghost use Rattle.std.specs.Prelude.{◌≡◌, ◌==◌, not, None, IfOk};
ghost use Rattle.node_objects.specs.Dialing.{faults_of};

use crate::system_line::SystemLine;
use lf_base::{Dialer, Failed, Handles, PollingStream, StreamLink, TcpDial, Text};
use std::os::unix::net::UnixStream;
use std::time::Duration;

/// What stands before the path of a Unix socket.
const UNIX: &str = "unix:";

/// A dialer over TCP, and over Unix sockets where `unix:` stands before a path.
#[derive(Debug, Drop)]
pub struct SystemDial {
    faults: u64,
    patience: u64,
}

impl SystemDial {
    /// It fails where it waits longer than so many milliseconds for an address to answer, and so do its
    /// links where a read or a write does. 0 is no limit.
    pub fn new(patience: u64) -> SystemDial
        ensures { result ≡ record { faults = 0; patience = patience } }
    {
        SystemDial {
            faults: 0,
            patience,
        }
    }

    /// Whether its count of faults is not 0.
    pub fn has_failed(&self) -> bool
        ensures { result ≡ not (self.now.faults == 0) }
    {
        self.faults != 0
    }
}

impl Dialer for SystemDial {
    type L = SystemLine;

    ghost faults = { λ d. d.faults };

    ghost dials = { λ _. None };

    fn dial<R: Handles>(&mut self, rt: &R, address: &Text) -> Result<SystemLine, Failed> {
        match dialed(rt, address, self.patience) {
            Ok(line) => Ok(line),
            Err(failed) => {
                self.faults = self.faults.saturating_add(1);
                Err(failed)
            }
        }
    }

    fn hang_up(&mut self, link: SystemLine) {
        if link.has_failed() {
            self.faults = self.faults.saturating_add(1);
        }
    }

    fn another(&self) -> SystemDial {
        SystemDial::new(self.patience)
    }
}

/// A new link to this address.
fn dialed<R: Handles>(rt: &R, address: &Text, patience: u64) -> Result<SystemLine, Failed>
    ensures { IfOk result (λ line. faults_of line ≡ 0) }
{
    if let Some(path) = address.as_str().strip_prefix(UNIX) {
        return dialed_path(rt, path, patience);
    }
    match TcpDial::new().patient(patience).dial(rt, address) {
        Ok(link) => Ok(SystemLine::Tcp(link)),
        Err(failed) => Err(failed),
    }
}

/// A new link to the Unix socket of this path. Where the system sets no limit, there is none.
fn dialed_path<R: Handles>(rt: &R, path: &str, patience: u64) -> Result<SystemLine, Failed>
    ensures { IfOk result (λ line. faults_of line ≡ 0) }
{
    let Ok(stream) = UnixStream::connect(rt, path) else {
        return Err(Failed);
    };
    if patience > 0 {
        let limit = Some(Duration::from_millis(patience));
        let _ = stream.set_read_timeout(limit);
        let _ = stream.set_write_timeout(limit);
    }
    Ok(SystemLine::Unix(StreamLink::new(PollingStream::new(stream))))
}
