//! A reply read to its end.
ghost use Rattle.std.specs.Prelude.{◌≡◌, ◌≤◌, [], drop, ℕ, List, IfErr, OnOk};
ghost use Rattle.stream_wire.specs.Head.{IsResponse};
ghost use Rattle.http_exchange.specs.Exchange.{FaultsBy, ReadsNone, ReadsReply, ReadsRest, TurnsBy};

use crate::body::{read_sized, read_to_end};
use crate::ends::untold_by;
use crate::reply_head::read_reply_head;
use crate::told::{Told, Untold};
use lf_base::{Bytes, Link};
use link_session::{Piece, Turns};
use std::alloc::Global;

/// Reads a reply until it is whole, unfit or too long.
pub(crate) fn read_reply<L: Link>(
    alloc: Global,
    link: &mut L,
    sized: bool,
    limit: u64,
    turns: &mut Turns,
) -> Result<Told, Untold>
    ensures reads { ReadsReply L.Link (record { sized = sized; limit = limit }) link.old link.new result }
    ensures fault { FaultsBy (L.faults link.old) (L.faults link.new) result }
    ensures turns { TurnsBy turns.old turns.new result }
{
    let mut piece = match Piece::new(alloc) {
        Ok(piece) => piece,
        Err(_) => return Err(Untold::NoMemory),
    };
    let mut held = Vec::new(alloc);
    let head = match read_reply_head(link, &mut piece, &mut held, turns) {
        Ok(head) => head,
        Err(why) => return Err(why),
    };
    let (_, behind) = held.as_slice().split_at(head.used);
    let mut body = match Vec::from_slice(alloc, behind) {
        Ok(body) => body,
        Err(_) => return Err(Untold::NoMemory),
    };
    match read_rest(
        link,
        &mut piece,
        &mut body,
        head.length,
        sized,
        limit,
        turns,
    ) {
        Ok(()) => Ok(Told {
            status: head.status,
            body: Bytes::of(body),
        }),
        Err(why) => Err(why),
    }
}

/// Reads the rest of a reply, of whose body these bytes have come, and whose head says this length.
fn read_rest<L: Link>(
    link: &mut L,
    piece: &mut Piece,
    body: &mut Vec<u8>,
    length: Option<u64>,
    sized: bool,
    limit: u64,
    turns: &mut Turns,
) -> Result<(), Untold>
    requires { piece.old ≡ [] }
    ensures whole { OnOk result ((bytes : List ℕ) (size status : ℕ) → IsResponse bytes size status length → body.old.items ≡ drop size bytes
        → ReadsRest L.Link (record { sized = sized; limit = limit }) bytes link.old link.new status body.new.items) }
    ensures untold { IfErr result (λ why. (bytes : List ℕ) (size status : ℕ) → IsResponse bytes size status length → body.old.items ≡ drop size bytes
        → ReadsNone L.Link (record { sized = sized; limit = limit }) bytes link.old link.new why) }
    ensures fault { FaultsBy (L.faults link.old) (L.faults link.new) result }
    ensures turns { TurnsBy turns.old turns.new result }
{
    match length {
        Some(length) => {
            if length > limit {
                return Err(Untold::TooLong);
            }
            match read_sized(link, piece, body, length, turns) {
                Ok(()) => Ok(()),
                Err(end) => Err(untold_by(end)),
            }
        }
        None => {
            if sized {
                return Err(Untold::Unfit);
            }
            read_to_end(link, piece, body, limit, turns)
        }
    }
}
