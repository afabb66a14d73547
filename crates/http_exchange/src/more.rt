//! Reading on.
ghost use Rattle.std.specs.Prelude.{◌≡◌, ◌<◌, ◌≤◌, [], OnOk, OnErr};
ghost use Rattle.link_session.specs.Spending.{MovesFor};
ghost use Rattle.http_exchange.specs.Reading.{EndsMore};

use lf_base::{Link, SessionEnd};
use link_session::{Piece, Turns};

/// Reads the next bytes, and puts them behind those that are held. It is a turn.
///
/// Closed where the input is at its end.
pub fn read_more<L: Link>(
    link: &mut L,
    piece: &mut Piece,
    held: &mut Vec<u8>,
    turns: &mut Turns,
) -> Result<(), SessionEnd>
    requires { piece.old ≡ [] }
    ensures end { EndsMore L.Link link.old link.new held.old.items held.new.items turns.new result }
    ensures empty { OnOk result (piece.new ≡ []) }
    ensures kept { OnErr result (held.new.items ≡ held.old.items) }
    ensures spent { MovesFor result turns.old (L.moves link.old) turns.new (L.moves link.new) }
    ensures less { OnOk result (turns.new < turns.old) }
    ensures turns { turns.new ≤ turns.old }
{
    match turns.take() {
        Ok(()) => {}
        Err(_) => return Err(SessionEnd::Turns),
    }
    match piece.refill(link) {
        Ok(()) => {}
        Err(_) => return Err(SessionEnd::ReadFault),
    }
    if piece.unread().is_empty() {
        return Err(SessionEnd::Closed);
    }
    match held.extend_from_slice(piece.unread()) {
        Ok(()) => {}
        Err(_) => return Err(SessionEnd::NoMemory),
    }
    let count = piece.unread().len();
    piece.skip(count);
    Ok(())
}
