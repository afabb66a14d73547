//! A request read to the end of its body.
ghost use Rattle.std.specs.Prelude.{◌≡◌, ◌≤◌, true, [], Err, IfOk, OnOk};
ghost use Rattle.std.specs.Io.KnownBytes.{Consumes, Keeps};
ghost use Rattle.lf_base.specs.declared.session_end.SessionEnd.TheVariants as ends;
ghost use Rattle.link_session.specs.declared.unread.Unread.TheVariants as unread;
ghost use Rattle.link_session.specs.Spending.{Moves, MovesFor};
ghost use Rattle.link_session.specs.Unread.{LeavesUnread, ended};
ghost use Rattle.txid_proxy.specs.Requests.{BeginsNone, HearsAll, IsPart};
ghost use Rattle.txid_proxy.specs.Unread.{unread_by};

use crate::asked::Asked;
use crate::hearing::hear;
use http_exchange::read_more;
use lf_base::{Link, SessionEnd};
use link_session::{FeedFault, Piece, Turns, Unread};
use std::alloc::Global;

/// Reads a request until it is whole, or its head where its body is too long. Each read is a turn. What came
/// in the same piece is held behind it.
///
/// Ended at the end of input before the first byte; Cut where the input ends inside the request; Broken where
/// the input begins none.
pub(crate) fn read_asked<L: Link>(
    alloc: Global,
    link: &mut L,
    held: &mut Vec<u8>,
    turns: &mut Turns,
) -> Result<Asked, Unread>
    requires { held.old.items ≡ [] }
    ensures heard { IfOk result (HearsAll held.new.items) }
    ensures read { OnOk result (Consumes (L.left link.old) (L.left link.new) held.new.items) }
    ensures taken { Keeps (L.taken link.old) (L.taken link.new) }
    ensures spent { MovesFor (ended result) turns.old (L.moves link.old) turns.new (L.moves link.new) }
    ensures broken { result ≡ Err unread.Broken → (turns.new ≤ turns.old) × Moves turns.old (L.moves link.old) turns.new (L.moves link.new) }
    ensures cause { LeavesUnread true IsPart BeginsNone (L.left link.old) (L.left link.new) (L.faults link.old) (L.faults link.new) turns.new result }
{
    let mut piece = match Piece::new(alloc) {
        Ok(piece) => piece,
        Err(_) => return Err(Unread::NoMemory),
    };
    'reads: loop {
        match hear(alloc, held.as_slice()) {
            Ok(Asked::Part) => {}
            Ok(asked) => return Ok(asked),
            Err(FeedFault::Broken) => return Err(Unread::Broken),
            Err(FeedFault::NoMemory) => return Err(Unread::NoMemory),
        }
        match read_more(link, &mut piece, held, turns) {
            Ok(()) => {}
            Err(end) => return Err(unread_by(held, end)),
        }
    }
}

/// Why no request was read of an input that ended, or could not be read, behind these bytes.
fn unread_by(held: &Vec<u8>, end: SessionEnd) -> Unread
    ensures { result ≡ unread_by end held.now.items }
{
    match end {
        SessionEnd::Closed => ended_behind(held),
        SessionEnd::BadMessage => Unread::Cut,
        SessionEnd::ReadFault | SessionEnd::WriteFault => Unread::ReadFault,
        SessionEnd::Turns | SessionEnd::Worn => Unread::Turns,
        SessionEnd::NoMemory => Unread::NoMemory,
    }
}

/// The same of one that ended.
fn ended_behind(held: &Vec<u8>) -> Unread
    ensures { result ≡ unread_by ends.Closed held.now.items }
{
    if held.is_empty() {
        return Unread::Ended;
    }
    Unread::Cut
}
