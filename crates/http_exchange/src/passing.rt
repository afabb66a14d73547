//! Bodies that are passed over.
ghost use Rattle.std.specs.Prelude.{◌≡◌, [], OnOk};
ghost use Rattle.link_session.specs.Spending.{MovesFor};
ghost use Rattle.http_exchange.specs.Reading.{EndsFewer, GaveEnough};

use lf_base::{Link, SessionEnd};
use link_session::{Piece, Turns};

/// Reads on until so many bytes came behind these, and keeps none. Each read is a turn.
///
/// BadMessage where the input ends before.
pub(crate) fn pass_over<L: Link>(
    link: &mut L,
    piece: &mut Piece,
    behind: &[u8],
    length: u64,
    turns: &mut Turns,
) -> Result<(), SessionEnd>
    requires { piece.old ≡ [] }
    ensures passed { OnOk result (GaveEnough L.Link link.old link.new behind.now length) }
    ensures cause { EndsFewer L.Link link.old link.new behind.now length turns.new result }
    ensures spent { MovesFor result turns.old (L.moves link.old) turns.new (L.moves link.new) }
{
    let mut left = length.saturating_sub(behind.len() as u64);
    'reads: while left > 0 {
        match turns.take() {
            Ok(()) => {}
            Err(_) => return Err(SessionEnd::Turns),
        }
        match piece.refill(link) {
            Ok(()) => {}
            Err(_) => return Err(SessionEnd::ReadFault),
        }
        let came = piece.unread().len();
        if came == 0 {
            return Err(SessionEnd::BadMessage);
        }
        piece.skip(came);
        left = left.saturating_sub(came as u64);
    }
    Ok(())
}
