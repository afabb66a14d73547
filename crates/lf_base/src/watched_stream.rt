//! A TCP stream that can be asked whether its peer is gone, and that need not wait for ever.

use std::io::{self, ErrorKind, Read, Write};
use std::net::TcpStream;
use std::time::Duration;

/// A TCP stream. A write of no bytes looks at the socket without waiting, and fails where the peer has
/// ended its side: so a side that only writes finds out that nobody reads.
#[derive(Drop)]
pub struct WatchedStream {
    stream: TcpStream,
}

impl WatchedStream {
    /// A read or a write that waits longer than so many milliseconds fails; 0 is no limit. Where the
    /// system sets no limit, there is none. No clause: it changes the mode of the socket alone, of which
    /// no contract knows.
    pub fn new(stream: TcpStream, patience: u64) -> WatchedStream {
        if patience > 0 {
            let limit = Some(Duration::from_millis(patience));
            let _ = stream.set_read_timeout(limit);
            let _ = stream.set_write_timeout(limit);
        }
        WatchedStream { stream }
    }

    /// Looks for the end of what the peer sends, and takes nothing.
    fn look(&self) -> io::Result<()> {
        self.stream.set_nonblocking(true)?;
        let seen = self.stream.peek(&mut [0; 1]);
        self.stream.set_nonblocking(false)?;
        match seen {
            Ok(0) => Err(ErrorKind::UnexpectedEof.into()),
            Ok(_) => Ok(()),
            Err(error) if error.kind() == ErrorKind::WouldBlock => Ok(()),
            Err(error) => Err(error),
        }
    }
}

impl Read for WatchedStream {
    fn read(&mut self, out: &mut [u8]) -> io::Result<usize> {
        self.stream.read(out)
    }
}

impl Write for WatchedStream {
    fn write(&mut self, bytes: &[u8]) -> io::Result<usize> {
        if bytes.is_empty() {
            self.look()?;
            return Ok(0);
        }
        self.stream.write(bytes)
    }

    fn flush(&mut self) -> io::Result<()> {
        self.stream.flush()
    }
}
