//! A text passed on by a dial of its own, and the reply to it.
ghost use Rattle.std.specs.Prelude.{◌++◌, IfOk};
ghost use Rattle.http_exchange.specs.Exchange.{FaultsBy, LinksTell, TurnsBy};
ghost use Rattle.txid_proxy.specs.Dialing.{Passes, PassesOnce};
ghost use Rattle.txid_proxy.specs.Passing.{IsReply};

use crate::reply::read_reply;
use http_exchange::{Untold, untold_by};
use lf_base::{Bytes, Dialer, Handles, Link, Text};
use link_session::{Turns, write_both};
use std::alloc::Global;

/// A text in two parts, one behind the other, which are written from where they stand.
#[derive(Clone, Copy)]
pub(crate) struct Parts<'a> {
    pub front: &'a [u8],
    pub back: &'a [u8],
}

/// Dials once, writes the text whole, reads the reply to the end of the link, and hangs up. Each call of
/// the link that moves bytes is a turn.
///
/// Unfit where the reply begins with no head; TooLong past 67,108,864 bytes.
pub(crate) fn pass<R: Handles, T: Dialer>(
    rt: &R,
    alloc: Global,
    dialer: &mut T,
    address: &Text,
    text: Parts<'_>,
    turns: &mut Turns,
) -> Result<Bytes, Untold>
    ensures dial { PassesOnce (text.entry.front.now ++ text.entry.back.now) (LinksTell T.L.given T.L.taken) (T.dials dialer.old) (T.dials dialer.new) result }
    ensures reply { IfOk result IsReply }
    ensures fault { FaultsBy (T.faults dialer.old) (T.faults dialer.new) result }
    ensures turns { TurnsBy turns.old turns.new result }
{
    let mut link = match dialer.dial(rt, address) {
        Ok(link) => link,
        Err(_) => return Err(Untold::Fault),
    };
    let told = talk(alloc, &mut link, text, turns);
    dialer.hang_up(link);
    told
}

/// Writes the text and reads the reply.
fn talk<L: Link>(
    alloc: Global,
    link: &mut L,
    text: Parts<'_>,
    turns: &mut Turns,
) -> Result<Bytes, Untold>
    ensures passes { Passes (text.entry.front.now ++ text.entry.back.now) (L.given link.old) (L.given link.new) (L.taken link.old) (L.taken link.new) (L.left link.new) result }
    ensures reply { IfOk result IsReply }
    ensures fault { FaultsBy (L.faults link.old) (L.faults link.new) result }
    ensures turns { TurnsBy turns.old turns.new result }
{
    match write_both(link, text.front, text.back, turns) {
        Ok(()) => read_reply(alloc, link, turns),
        Err(end) => Err(untold_by(end)),
    }
}
