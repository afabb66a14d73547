use crate::handles::Handles;
use crate::text::Text;
use std::net::{SocketAddr, TcpStream};
use std::os::unix::net::UnixStream;

/// Where an acceptor waits for links.
#[derive(Drop)]
pub enum Door {
    /// The path of a Unix socket.
    Path(Text),
    Address(SocketAddr),
}

impl Door {
    /// Dials it, and hangs up. Nothing is told of it.
    pub fn knock<R: Handles>(&self, rt: &R) {
        match self {
            Door::Path(path) => {
                let _ = UnixStream::connect(rt, path.as_str());
            }
            Door::Address(address) => {
                let _ = TcpStream::connect(rt, *address);
            }
        }
    }
}
