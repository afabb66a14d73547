//! The one dial.
ghost use Rattle.std.specs.Prelude.{◌≡◌, false};
ghost use Rattle.http_exchange.specs.Exchange.{FaultsBy, LinksTell, TurnsBy};
ghost use Rattle.ltx_backup.specs.Adding.{Breaks};
ghost use Rattle.ltx_backup.specs.Causes.{AreHonest, HasCauses};
ghost use Rattle.backup_link.specs.Endings.{of_backup, of_network};
ghost use Rattle.backup_link.specs.Fetching.{Fetches, stream_request};
ghost use Rattle.backup_link.specs.Keeping.{ButForDisk, KeepsAdded};

use crate::origin::Origin;
use crate::streaming::talk;
use crate::unfetched::Unfetched;
use http_exchange::Untold;
use lf_base::{Dialer, Handles};
use lf_disk::Disk;
use link_session::Turns;
use ltx_backup::Backup;
use std::alloc::Global;

/// Dials once, asks for the stream of the database from the backup's end on, adds the file of each frame
/// until one says that the backup is level, and hangs up.
///
/// A frame is a turn, and so is each call of the link that moves bytes. Unfit is a reply that is none or
/// ends before, a frame that belongs to no stream of this database, and the stream's end; TooLong a frame
/// with a body of more than 2,147,483,648 bytes. Nothing is added behind what stopped it.
pub fn fetch<R: Handles, T: Dialer, D: Disk>(
    rt: &R,
    alloc: Global,
    dialer: &mut T,
    origin: &Origin<'_>,
    backup: &mut Backup<D>,
    turns: &mut Turns,
) -> Result<(), Unfetched>
    requires sound { backup.old.broken ≡ false }
    ensures fetches { Fetches (stream_request origin.now.address.now origin.now.name.now backup.old.index.end) origin.now.name.now
        (LinksTell T.L.given T.L.taken) (T.dials dialer.old) (T.dials dialer.new)
        (λ files. ButForDisk (of_backup result) (KeepsAdded (AreHonest (D.honest backup.old.low) (D.honest backup.old.middle) (D.honest backup.old.high))
        (record { index = backup.old.index; low = D.history backup.old.low; middle = D.history backup.old.middle; high = D.history backup.old.high })
        (record { index = backup.new.index; low = D.history backup.new.low; middle = D.history backup.new.middle; high = D.history backup.new.high }) files)) result }
    ensures fault { FaultsBy (T.faults dialer.old) (T.faults dialer.new) (of_network result) }
    ensures turns { TurnsBy turns.old turns.new (of_network result) }
    ensures breaks { Breaks backup.old.broken (of_backup result) backup.new.broken }
    ensures honest { (D.honest backup.new.low ≡ D.honest backup.old.low) × (D.honest backup.new.middle ≡ D.honest backup.old.middle) × (D.honest backup.new.high ≡ D.honest backup.old.high) }
    ensures cause { HasCauses (record { low = D.faults backup.old.low; middle = D.faults backup.old.middle; high = D.faults backup.old.high })
        (record { low = D.faults backup.new.low; middle = D.faults backup.new.middle; high = D.faults backup.new.high }) (of_backup result) }
{
    let mut link = match dialer.dial(rt, origin.address) {
        Ok(link) => link,
        Err(_) => return Err(Unfetched::Untold(Untold::Fault)),
    };
    let fetched = talk(alloc, &mut link, origin, backup, turns);
    dialer.hang_up(link);
    fetched
}
