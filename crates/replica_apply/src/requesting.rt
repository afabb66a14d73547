//! The request for a stream.
ghost use Rattle.std.specs.Prelude.{◌≡◌, ◌++◌, OnOk};
ghost use Rattle.std.specs.Io.KnownBytes.{Keeps};
ghost use Rattle.link_session.specs.Spending.{MovesFor};
ghost use Rattle.replica_apply.specs.Following.{request_for, said, EndsRequest};

use lf_base::{Link, Name, NoMemory, Pos, SessionEnd, Text};
use link_session::{Turns, write_whole};
use node_core::Whereabouts;
use std::alloc::Global;
use stream_wire::{LastFile, write_stream_head, write_stream_line};

/// The host that the request names, which is not told by a link.
const HOST: &str = "localhost";

/// Writes the request for the stream from where the node stands on, which says what its last file is, or
/// that its position is unknown. It is put together before its first byte is written.
pub fn send_request<L: Link>(
    alloc: Global,
    link: &mut L,
    name: &Name,
    here: Whereabouts,
    unknown: bool,
    turns: &mut Turns,
) -> Result<(), SessionEnd>
    ensures end { EndsRequest (request_for name.now here.pos (said unknown here.last)) (L.taken link.old) (L.taken link.new) (L.faults link.old) (L.faults link.new) turns.new result }
    ensures left { Keeps (L.left link.old) (L.left link.new) }
    ensures spent { MovesFor result turns.old (L.moves link.old) turns.new (L.moves link.new) }
{
    let mut text = Vec::new(alloc);
    let last = said(unknown, here.last);
    match put_request(alloc, name, here.pos, last, &mut text) {
        Ok(()) => write_whole(link, text.as_slice(), turns),
        Err(_) => Err(SessionEnd::NoMemory),
    }
}

/// What the request says of the last file.
fn said(unknown: bool, last: Option<txn_log::LastFile>) -> Option<LastFile>
    ensures { result ≡ said unknown last }
{
    if unknown {
        return Some(LastFile::Unknown);
    }
    match last {
        None => None,
        Some(txn_log::LastFile::Unknown) => Some(LastFile::Unknown),
        Some(txn_log::LastFile::File { min, max, sum }) => Some(LastFile::File { min, max, sum }),
    }
}

fn put_request(
    alloc: Global,
    name: &Name,
    pos: Pos,
    last: Option<LastFile>,
    text: &mut Vec<u8>,
) -> Result<(), NoMemory>
    ensures { OnOk result (text.new.items ≡ text.old.items ++ request_for name.now pos last) }
{
    let mut line = Vec::new(alloc);
    write_stream_line(name, pos, &mut line)?;
    let host = Text::of(alloc, HOST)?;
    write_stream_head(alloc, &host, line.len() as u64, last, text)?;
    text.extend_from_slice(line.as_slice())?;
    Ok(())
}
