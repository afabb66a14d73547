//! The request for the stream.
ghost use Rattle.std.specs.Prelude.{◌≡◌, ◌++◌, OnErr, OnOk};
ghost use Rattle.std.specs.Io.KnownBytes.{Appends, Keeps};
ghost use Rattle.http_exchange.specs.Exchange.{FaultsBy, TurnsBy};
ghost use Rattle.backup_link.specs.Fetching.{AppendsFront, CanStop, stream_request};

use crate::origin::Origin;
use http_exchange::Untold;
use lf_base::{Link, NoMemory, Pos, SessionEnd};
use link_session::{Turns, write_whole};
use std::alloc::Global;
use stream_wire::{write_stream_head, write_stream_line};

/// Asks for the stream from a position on. The request is put together before its first byte is written.
pub(crate) fn send_request<L: Link>(
    alloc: Global,
    link: &mut L,
    origin: &Origin<'_>,
    here: Pos,
    turns: &mut Turns,
) -> Result<(), Untold>
    ensures whole { OnOk result (Appends (L.taken link.old) (L.taken link.new) (stream_request origin.now.address.now origin.now.name.now here)) }
    ensures front { OnErr result (AppendsFront (L.taken link.old) (L.taken link.new) (stream_request origin.now.address.now origin.now.name.now here)) }
    ensures stops { CanStop result }
    ensures given { Keeps (L.given link.old) (L.given link.new) }
    ensures fault { FaultsBy (L.faults link.old) (L.faults link.new) result }
    ensures turns { TurnsBy turns.old turns.new result }
{
    let mut text = Vec::new(alloc);
    match put_request(alloc, origin, here, &mut text) {
        Ok(()) => {}
        Err(_) => return Err(Untold::NoMemory),
    }
    match write_whole(link, text.as_slice(), turns) {
        Ok(()) => Ok(()),
        Err(SessionEnd::WriteFault) => Err(Untold::Fault),
        Err(SessionEnd::Turns) => Err(Untold::Turns),
        Err(
            SessionEnd::Closed
            | SessionEnd::ReadFault
            | SessionEnd::BadMessage
            | SessionEnd::Worn
            | SessionEnd::NoMemory,
        ) => unreachable!(),
    }
}

fn put_request(
    alloc: Global,
    origin: &Origin<'_>,
    here: Pos,
    text: &mut Vec<u8>,
) -> Result<(), NoMemory>
    ensures { OnOk result (text.new.items ≡ text.old.items ++ stream_request origin.now.address.now origin.now.name.now here) }
{
    let mut line = Vec::new(alloc);
    write_stream_line(origin.name, here, &mut line)?;
    write_stream_head(alloc, origin.address, line.len() as u64, None, text)?;
    text.extend_from_slice(line.as_slice())?;
    Ok(())
}
