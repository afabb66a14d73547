//! Reading on.
ghost use Rattle.std.specs.Prelude.{◌≡◌, ◌<◌, ◌≤◌, ◌+◌, ◌*◌, [], length, IfErr, OnErr, OnOk};
ghost use Rattle.std.specs.Io.KnownBytes.{IsAtEnd};
ghost use Rattle.http_exchange.specs.Exchange.{FaultsBy, TurnsBy};
ghost use Rattle.http_exchange.specs.Reading.{Gave};
ghost use Rattle.backup_link.specs.Endings.{IsStopped};

use http_exchange::Untold;
use lf_base::Link;
use link_session::{Piece, Turns};

/// Reads the next bytes of the link; none is its end. It is a turn.
pub(crate) fn refill<L: Link>(
    link: &mut L,
    piece: &mut Piece,
    turns: &mut Turns,
) -> Result<(), Untold>
    requires { piece.old ≡ [] }
    ensures gave { Gave L.Link link.old link.new piece.new }
    ensures end { OnOk result (piece.new ≡ [] → IsAtEnd (L.left link.new)) }
    ensures none { OnErr result (piece.new ≡ []) }
    ensures most { OnOk result (length piece.new + turns.new * 65536 ≤ turns.old * 65536) }
    ensures less { OnOk result (turns.new < turns.old) }
    ensures stopped { IfErr result IsStopped }
    ensures fault { FaultsBy (L.faults link.old) (L.faults link.new) result }
    ensures turns { TurnsBy turns.old turns.new result }
{
    match turns.take() {
        Ok(()) => {}
        Err(_) => return Err(Untold::Turns),
    }
    match piece.refill(link) {
        Ok(()) => Ok(()),
        Err(_) => Err(Untold::Fault),
    }
}
