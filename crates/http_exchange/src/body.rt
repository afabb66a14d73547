//! Bodies read.
ghost use Rattle.std.specs.Prelude.{◌≡◌, ◌≤◌, [], length, OnOk};
ghost use Rattle.std.specs.Io.KnownBytes.{IsAtEnd};
ghost use Rattle.link_session.specs.Spending.{MovesFor};
ghost use Rattle.http_exchange.specs.Exchange.{EndsUnending, FaultsBy, TurnsBy};
ghost use Rattle.http_exchange.specs.Reading.{EndsFewer, GaveMore, KeepsEnough};

use crate::ends::{at_end, inside};
use crate::more::read_more;
use crate::told::Untold;
use lf_base::{Link, SessionEnd};
use link_session::{Piece, Turns};

/// Reads on until the body has so many bytes, and keeps just these.
///
/// BadMessage where the input ends before.
pub(crate) fn read_sized<L: Link>(
    link: &mut L,
    piece: &mut Piece,
    body: &mut Vec<u8>,
    length: u64,
    turns: &mut Turns,
) -> Result<(), SessionEnd>
    requires { piece.old ≡ [] }
    ensures whole { OnOk result (KeepsEnough L.Link link.old link.new body.old.items length body.new.items) }
    ensures cause { EndsFewer L.Link link.old link.new body.old.items length turns.new result }
    ensures spent { MovesFor result turns.old (L.moves link.old) turns.new (L.moves link.new) }
    ensures turns { turns.new ≤ turns.old }
{
    'reads: while (body.len() as u64) < length {
        match read_more(link, piece, body, turns) {
            Ok(()) => {}
            Err(end) => return Err(inside(end)),
        }
    }
    body.truncate(length as usize);
    Ok(())
}

/// Reads on until the input's end, which comes before the body has more bytes than `limit`.
pub(crate) fn read_to_end<L: Link>(
    link: &mut L,
    piece: &mut Piece,
    body: &mut Vec<u8>,
    limit: u64,
    turns: &mut Turns,
) -> Result<(), Untold>
    requires { piece.old ≡ [] }
    ensures whole { OnOk result (GaveMore L.Link link.old link.new body.old.items body.new.items × IsAtEnd (L.left link.new) × (length body.new.items ≤ limit)) }
    ensures cause { EndsUnending L.Link link.old link.new body.old.items limit result }
    ensures fault { FaultsBy (L.faults link.old) (L.faults link.new) result }
    ensures turns { TurnsBy turns.old turns.new result }
{
    'reads: loop {
        if body.len() as u64 > limit {
            return Err(Untold::TooLong);
        }
        match read_more(link, piece, body, turns) {
            Ok(()) => {}
            Err(end) => return at_end(end),
        }
    }
}
