//! A reply read to the end of its link.
ghost use Rattle.std.specs.Prelude.{◌≡◌, ◌≤◌, [], length, IfOk, OnOk};
ghost use Rattle.std.specs.Io.KnownBytes.{IsAtEnd};
ghost use Rattle.http_exchange.specs.Exchange.{EndsUnending, FaultsBy, TurnsBy};
ghost use Rattle.http_exchange.specs.Reading.{Gave};
ghost use Rattle.txid_proxy.specs.Passing.{IsReply};
ghost use Rattle.txid_proxy.specs.Dialing.{ReadsReply};

use crate::marking::is_reply;
use http_exchange::{Untold, at_end, read_more};
use lf_base::{Bytes, Link};
use link_session::{Piece, Turns};
use std::alloc::Global;

/// The most bytes of a reply.
const REPLY_MAX: u64 = 67_108_864;

/// Reads on until the input's end.
pub(crate) fn read_reply<L: Link>(
    alloc: Global,
    link: &mut L,
    turns: &mut Turns,
) -> Result<Bytes, Untold>
    ensures reads { ReadsReply L.Link link.old link.new result }
    ensures reply { IfOk result IsReply }
    ensures fault { FaultsBy (L.faults link.old) (L.faults link.new) result }
    ensures turns { TurnsBy turns.old turns.new result }
{
    let mut reply = Vec::new(alloc);
    match read_to_end(alloc, link, &mut reply, turns) {
        Ok(()) => {}
        Err(why) => return Err(why),
    }
    if is_reply(reply.as_slice()) {
        Ok(Bytes::of(reply))
    } else {
        Err(Untold::Unfit)
    }
}

/// Reads on until the input's end, which comes before there are too many bytes.
fn read_to_end<L: Link>(
    alloc: Global,
    link: &mut L,
    reply: &mut Vec<u8>,
    turns: &mut Turns,
) -> Result<(), Untold>
    requires { reply.old.items ≡ [] }
    ensures whole { OnOk result (Gave L.Link link.old link.new reply.new.items × IsAtEnd (L.left link.new) × (length reply.new.items ≤ 67108864)) }
    ensures cause { EndsUnending L.Link link.old link.new [] 67108864 result }
    ensures fault { FaultsBy (L.faults link.old) (L.faults link.new) result }
    ensures turns { TurnsBy turns.old turns.new result }
{
    let mut piece = match Piece::new(alloc) {
        Ok(piece) => piece,
        Err(_) => return Err(Untold::NoMemory),
    };
    'reads: while reply.len() as u64 <= REPLY_MAX {
        match read_more(link, &mut piece, reply, turns) {
            Ok(()) => {}
            Err(end) => return at_end(end),
        }
    }
    Err(Untold::TooLong)
}
