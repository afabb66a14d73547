//! What every crate of the node stands on: plain values, and the outside as traits with a meaning.
//!
//! A source or a sink is a trait whose contract says which bytes it has left or taken, where it
//! tells them, and how often it has failed. Those in memory tell all; those over std's readers and
//! writers tell what these tell, and their count of faults.
#![tactic(auto)]

mod acceptor;
mod bytes;
mod call_spawner;
mod clock;
mod closing;
mod dialer;
mod digits;
mod door;
mod endian;
mod errno;
mod file_bytes;
mod gate;
mod handles;
mod link;
mod list_acceptor;
mod mem_dialer;
mod mem_link;
mod memory;
mod name;
mod pause;
mod polling_stream;
mod pos;
mod session_end;
mod sink;
mod slice_source;
mod source;
mod spawner;
mod status;
mod std_accept;
mod std_streams;
mod std_time;
mod stream_link;
mod tcp_dial;
mod text;
mod thread_spawner;
mod vec_sink;
mod watch;
mod watched_stream;

pub use acceptor::Acceptor;
pub use bytes::Bytes;
pub use call_spawner::CallSpawner;
pub use clock::{Clock, FixedClock};
pub use closing::Closing;
pub use dialer::Dialer;
pub use digits::{hex16, read_hex16};
pub use door::Door;
pub use endian::{
    be16_at, be32_at, be64_at, le16_at, le16_bytes, le32_at, le32_bytes, le64_at, le64_bytes,
};
pub use errno::Errno;
pub use file_bytes::overwrite;
pub use gate::Gate;
pub use handles::Handles;
pub use link::Link;
pub use list_acceptor::ListAcceptor;
pub use mem_dialer::MemDialer;
pub use mem_link::MemLink;
pub use memory::NoMemory;
pub use name::{Name, NameFault};
pub use pause::{NoPause, Pause};
pub use polling_stream::PollingStream;
pub use pos::{Pos, pos_text, read_pos};
pub use session_end::SessionEnd;
pub use sink::Sink;
pub use slice_source::SliceSource;
pub use source::{Failed, Source};
pub use spawner::{Job, Place, Spawner, start, start_call};
pub use status::Status;
pub use std_accept::{TcpAccept, UnixAccept};
pub use std_streams::{StdSink, StdSource};
pub use std_time::{SleepPause, SystemClock};
pub use stream_link::{StreamLink, TcpLink, UnixLink};
pub use tcp_dial::TcpDial;
pub use text::Text;
pub use thread_spawner::ThreadSpawner;
pub use vec_sink::VecSink;
pub use watch::Watch;
pub use watched_stream::WatchedStream;
