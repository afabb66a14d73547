//! The head of a reply.
ghost use Rattle.std.specs.Prelude.{◌≡◌, [], IfErr, IfOk, OnOk};
ghost use Rattle.stream_wire.specs.Head.{IsResponse};
ghost use Rattle.http_exchange.specs.Exchange.{FaultsBy, ReadsNone, TurnsBy};
ghost use Rattle.http_exchange.specs.Reading.{Gave};
ghost use Rattle.http_exchange.specs.Reply.{Terms};

use crate::ends::untold_by;
use crate::more::read_more;
use crate::told::Untold;
use lf_base::Link;
use link_session::{Piece, Turns};
use stream_wire::{Told, read_response};

/// What the head of a reply says, and how many bytes it has.
#[derive(Clone, Copy)]
pub(crate) struct ReplyHead {
    pub used: usize,
    pub status: u16,
    pub length: Option<u64>,
}

/// Reads on until the head of a reply is whole. What came in the same piece is held behind it.
pub(crate) fn read_reply_head<L: Link>(
    link: &mut L,
    piece: &mut Piece,
    held: &mut Vec<u8>,
    turns: &mut Turns,
) -> Result<ReplyHead, Untold>
    requires empty { piece.old ≡ [] }
    requires none { held.old.items ≡ [] }
    ensures head { IfOk result (λ head. IsResponse held.new.items head.used head.status head.length) }
    ensures gave { OnOk result (Gave L.Link link.old link.new held.new.items) }
    ensures empty { OnOk result (piece.new ≡ []) }
    ensures untold { IfErr result (λ why. (terms : Terms) → ReadsNone L.Link terms [] link.old link.new why) }
    ensures fault { FaultsBy (L.faults link.old) (L.faults link.new) result }
    ensures turns { TurnsBy turns.old turns.new result }
{
    'reads: loop {
        match read_response(held.as_slice()) {
            Ok(Told::Part) => {}
            Ok(
                Told::Whole {
                    used,
                    status,
                    length,
                },
            ) => {
                return Ok(ReplyHead {
                    used,
                    status,
                    length,
                });
            }
            Err(_) => return Err(Untold::Unfit),
        }
        match read_more(link, piece, held, turns) {
            Ok(()) => {}
            Err(end) => return Err(untold_by(end)),
        }
    }
}
