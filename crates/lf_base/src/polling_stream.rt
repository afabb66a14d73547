//! A stream of a Unix socket that is looked at a few times before its reader sleeps.
ghost use Rattle.std.specs.Io.{ReadsAtMost, WritesAtMost};

use std::io::{self, ErrorKind, Read, Write};
use std::os::unix::net::UnixStream;
use std::thread;

/// How often a read looks for bytes before it sleeps: for some ten microseconds, in which a client that works on one
/// reply sends its next message. To be woken costs as much.
const LOOKS: u32 = 40;

/// A Unix socket that doesn't wait, and is made to where its reader or writer has to sleep.
#[derive(Drop)]
pub struct PollingStream {
    stream: UnixStream,
}

impl PollingStream {
    /// Where the system refuses, the stream waits at once. No clause: it changes the mode of the socket
    /// alone, of which no contract knows.
    pub fn new(stream: UnixStream) -> PollingStream {
        let _ = stream.set_nonblocking(true);
        PollingStream { stream }
    }

    fn read_waiting(&mut self, out: &mut [u8]) -> io::Result<usize>
        ensures { ReadsAtMost result out.new }
    {
        self.stream.set_nonblocking(false)?;
        let count = self.stream.read(out);
        let _ = self.stream.set_nonblocking(true);
        count
    }

    fn write_waiting(&mut self, bytes: &[u8]) -> io::Result<usize>
        ensures { WritesAtMost result bytes.now }
    {
        self.stream.set_nonblocking(false)?;
        let count = self.stream.write(bytes);
        let _ = self.stream.set_nonblocking(true);
        count
    }
}

impl Read for PollingStream {
    fn read(&mut self, out: &mut [u8]) -> io::Result<usize> {
        for _ in 0..LOOKS {
            match self.stream.read(out) {
                Err(error) if error.kind() == ErrorKind::WouldBlock => thread::yield_now(),
                outcome => return outcome,
            }
        }
        self.read_waiting(out)
    }
}

impl Write for PollingStream {
    fn write(&mut self, bytes: &[u8]) -> io::Result<usize> {
        match self.stream.write(bytes) {
            Err(error) if error.kind() == ErrorKind::WouldBlock => self.write_waiting(bytes),
            outcome => outcome,
        }
    }

    fn flush(&mut self) -> io::Result<()> {
        self.stream.flush()
    }
}
