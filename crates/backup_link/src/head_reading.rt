//! The head of the reply.
ghost use Rattle.std.specs.Prelude.{◌≡◌, ◌<◌, ◌+◌, ◌*◌, [], length, IfErr, IfOk, OnOk};
ghost use Rattle.std.specs.Io.KnownBytes.{IsAtEnd};
ghost use Rattle.http_exchange.specs.Exchange.{FaultsBy, TurnsBy};
ghost use Rattle.http_exchange.specs.Reading.{Gave};
ghost use Rattle.backup_link.specs.Heads.{GaveByte, GaveHead, GaveNone, GaveNoHead};

use crate::refilling::refill;
use http_exchange::Untold;
use lf_base::Link;
use link_session::{Piece, Turns};
use std::alloc::Global;
use stream_wire::{Told, read_response};

/// Reads up to the end of the head, and answers its status. What came behind it in the same piece waits
/// there.
pub(crate) fn read_head<L: Link>(
    alloc: Global,
    link: &mut L,
    piece: &mut Piece,
    turns: &mut Turns,
) -> Result<u16, Untold>
    requires { piece.old ≡ [] }
    ensures head { IfOk result (GaveHead L.Link link.old link.new piece.new) }
    ensures none { IfErr result (GaveNoHead L.Link link.old link.new) }
    ensures fault { FaultsBy (L.faults link.old) (L.faults link.new) result }
    ensures turns { TurnsBy turns.old turns.new result }
{
    let mut head = Vec::new(alloc);
    'bytes: loop {
        let byte = match next_byte(link, piece, turns) {
            Ok(byte) => byte,
            Err(why) => return Err(why),
        };
        match head.push(byte) {
            Ok(()) => {}
            Err(_) => return Err(Untold::NoMemory),
        }
        match read_response(head.as_slice()) {
            Ok(Told::Part) => {}
            Ok(Told::Whole { status, .. }) => return Ok(status),
            Err(_) => return Err(Untold::Unfit),
        }
    }
}

/// The next byte of the link. Each leaves fewer within reach of the turns.
fn next_byte<L: Link>(link: &mut L, piece: &mut Piece, turns: &mut Turns) -> Result<u8, Untold>
    ensures byte { IfOk result (GaveByte L.Link link.old link.new piece.old piece.new) }
    ensures within { OnOk result (length piece.new + turns.new * 65536 < length piece.old + turns.old * 65536) }
    ensures none { IfErr result (GaveNone L.Link link.old link.new piece.old) }
    ensures fault { FaultsBy (L.faults link.old) (L.faults link.new) result }
    ensures turns { TurnsBy turns.old turns.new result }
{
    if piece.unread().is_empty() {
        match refill(link, piece, turns) {
            Ok(()) => {}
            Err(why) => return Err(why),
        }
    }
    let byte = match piece.unread().first() {
        Some(byte) => *byte,
        None => return Err(Untold::Unfit),
    };
    piece.skip(1);
    Ok(byte)
}
