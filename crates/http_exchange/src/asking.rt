//! A request asked by a dial of its own.
ghost use Rattle.stream_wire.specs.Call.{IsNamed};
ghost use Rattle.http_exchange.specs.Exchange.{DialsOnce, FaultsBy, LinksTell, Talks, TurnsBy};
ghost use Rattle.http_exchange.specs.Writing.{request_text};

use crate::ends::untold_by;
use crate::reply_reading::read_reply;
use crate::request::Request;
use crate::sending::send;
use crate::told::{Told, Untold};
use lf_base::{Dialer, Handles, Link, Text};
use link_session::Turns;
use std::alloc::Global;

/// Asks once: dials, writes the request whole, reads the reply until it is whole or unfit, and hangs
/// up. Each call of the link that moves bytes is a turn.
///
/// A body has at most `limit` bytes. What stands behind the reply is not looked at.
pub fn exchange<R: Handles, T: Dialer>(
    rt: &R,
    alloc: Global,
    dialer: &mut T,
    address: &Text,
    request: Request<'_>,
    limit: u64,
    turns: &mut Turns,
) -> Result<Told, Untold>
    requires { IsNamed request.call.now }
    ensures dial { DialsOnce (record { text = request_text request.entry.call.now request.entry.host.now request.entry.front.now request.entry.back.now; terms = record { sized = request.entry.sized; limit = limit } })
        (LinksTell T.L.given T.L.taken) (T.dials dialer.old) (T.dials dialer.new) result }
    ensures fault { FaultsBy (T.faults dialer.old) (T.faults dialer.new) result }
    ensures turns { TurnsBy turns.old turns.new result }
{
    let mut link = match dialer.dial(rt, address) {
        Ok(link) => link,
        Err(_) => return Err(Untold::Fault),
    };
    let told = talk(alloc, &mut link, request, limit, turns);
    dialer.hang_up(link);
    told
}

/// Writes the request and reads its reply.
fn talk<L: Link>(
    alloc: Global,
    link: &mut L,
    request: Request<'_>,
    limit: u64,
    turns: &mut Turns,
) -> Result<Told, Untold>
    requires { IsNamed request.call.now }
    ensures talks { Talks (record { text = request_text request.entry.call.now request.entry.host.now request.entry.front.now request.entry.back.now; terms = record { sized = request.entry.sized; limit = limit } })
        (L.given link.old) (L.given link.new) (L.taken link.old) (L.taken link.new) (L.left link.new) result }
    ensures fault { FaultsBy (L.faults link.old) (L.faults link.new) result }
    ensures turns { TurnsBy turns.old turns.new result }
{
    let sized = request.sized;
    match send(alloc, link, request, turns) {
        Ok(()) => read_reply(alloc, link, sized, limit, turns),
        Err(end) => Err(untold_by(end)),
    }
}
