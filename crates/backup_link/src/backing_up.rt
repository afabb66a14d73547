//! What is new in a database goes into its backup.
ghost use Rattle.std.specs.Prelude.{◌≡◌, false, Ok, IsTrue};
ghost use Rattle.http_exchange.specs.Exchange.{FaultsBy, LinksTell};
ghost use Rattle.lf_disk.specs.History.{IsSettledBut};
ghost use Rattle.lf_disk.specs.declared.name.FileName.TheVariants as name;
ghost use Rattle.ltx_backup.specs.Causes.{AreHonest, HasCauses};
ghost use Rattle.ltx_backup.specs.Entries.{IsKept};
ghost use Rattle.ltx_backup.specs.Levels.{Levels};
ghost use Rattle.backup_link.specs.BackingUp.{BacksUp, EndsAs, HasEnded, HasFetched};
ghost use Rattle.backup_link.specs.Endings.{of_backup, of_network};

use crate::dialing::fetch;
use crate::disks::Disks;
use crate::origin::Origin;
use crate::restoring::closed;
use crate::unfetched::Unfetched;
use lf_base::{Dialer, Handles, Pos};
use lf_disk::Disk;
use link_session::Turns;
use ltx_backup::{Backup, BackupFault};
use std::alloc::Global;

/// More turns than any stream takes.
const BUDGET: u64 = 4_611_686_018_427_387_904;

/// Opens the backup on these disks, fetches what is new by one dial, and settles it. It answers where the
/// backup ends then. The disks come back.
pub fn back_up<R: Handles, T: Dialer, D: Disk>(
    rt: &R,
    alloc: Global,
    dialer: &mut T,
    origin: &Origin<'_>,
    disks: Disks<D>,
) -> (Disks<D>, Result<Pos, Unfetched>)
    requires low_settled { IsTrue (D.honest disks.low) → IsSettledBut name.Staged (D.history disks.low) }
    requires middle_settled { IsTrue (D.honest disks.middle) → IsSettledBut name.Staged (D.history disks.middle) }
    requires high_settled { IsTrue (D.honest disks.high) → IsSettledBut name.Staged (D.history disks.high) }
    ensures backs_up { BacksUp origin.now.address.now origin.now.name.now (LinksTell T.L.given T.L.taken) (T.dials dialer.old) (T.dials dialer.new)
        (AreHonest (D.honest disks.low) (D.honest disks.middle) (D.honest disks.high)) (D.history disks.low) (D.history disks.middle) (D.history disks.high)
        (D.history result.0.low) (D.history result.0.middle) (D.history result.0.high) result.1 }
    ensures fault { FaultsBy (T.faults dialer.old) (T.faults dialer.new) (of_network result.1) }
    ensures honest { (D.honest result.0.low ≡ D.honest disks.low) × (D.honest result.0.middle ≡ D.honest disks.middle) × (D.honest result.0.high ≡ D.honest disks.high) }
    ensures cause { HasCauses (record { low = D.faults disks.low; middle = D.faults disks.middle; high = D.faults disks.high })
        (record { low = D.faults result.0.low; middle = D.faults result.0.middle; high = D.faults result.0.high }) (of_backup result.1) }
{
    let Disks { low, middle, high } = disks;
    match Backup::open(alloc, low, middle, high) {
        Ok(backup) => fetch_and_settle(rt, alloc, dialer, origin, backup),
        Err((why, low, middle, high)) => (Disks { low, middle, high }, Err(Unfetched::Backup(why))),
    }
}

/// Fetches what is new into an open backup, and settles it.
fn fetch_and_settle<R: Handles, T: Dialer, D: Disk>(
    rt: &R,
    alloc: Global,
    dialer: &mut T,
    origin: &Origin<'_>,
    backup: Backup<D>,
) -> (Disks<D>, Result<Pos, Unfetched>)
    requires sound { backup.broken ≡ false }
    ensures fetched { HasFetched origin.now.address.now origin.now.name.now backup.index (LinksTell T.L.given T.L.taken) (T.dials dialer.old) (T.dials dialer.new)
        (AreHonest (D.honest backup.low) (D.honest backup.middle) (D.honest backup.high)) (D.history backup.low) (D.history backup.middle) (D.history backup.high)
        (D.history result.0.low) (D.history result.0.middle) (D.history result.0.high) result.1 }
    ensures fault { FaultsBy (T.faults dialer.old) (T.faults dialer.new) (of_network result.1) }
    ensures honest { (D.honest result.0.low ≡ D.honest backup.low) × (D.honest result.0.middle ≡ D.honest backup.middle) × (D.honest result.0.high ≡ D.honest backup.high) }
    ensures cause { HasCauses (record { low = D.faults backup.low; middle = D.faults backup.middle; high = D.faults backup.high })
        (record { low = D.faults result.0.low; middle = D.faults result.0.middle; high = D.faults result.0.high }) (of_backup result.1) }
{
    let mut backup = backup;
    let mut turns = Turns::new(BUDGET);
    match fetch(rt, alloc, dialer, origin, &mut backup, &mut turns) {
        Ok(()) => {
            let end = settle(alloc, &mut backup);
            (closed(backup), end)
        }
        Err(why) => (closed(backup), Err(why)),
    }
}

/// Settles a backup, and answers where it ends.
fn settle<D: Disk>(alloc: Global, backup: &mut Backup<D>) -> Result<Pos, Unfetched>
    requires sound { backup.old.broken ≡ false }
    ensures ends { AreHonest (D.honest backup.old.low) (D.honest backup.old.middle) (D.honest backup.old.high) → (levels : Levels)
        → IsKept levels backup.old.index (D.history backup.old.low) (D.history backup.old.middle) (D.history backup.old.high)
        → HasEnded levels (D.history backup.new.low) (D.history backup.new.middle) (D.history backup.new.high) result }
    ensures ends_as { EndsAs (Ok tt) result }
    ensures honest { (D.honest backup.new.low ≡ D.honest backup.old.low) × (D.honest backup.new.middle ≡ D.honest backup.old.middle) × (D.honest backup.new.high ≡ D.honest backup.old.high) }
    ensures cause { HasCauses (record { low = D.faults backup.old.low; middle = D.faults backup.old.middle; high = D.faults backup.old.high })
        (record { low = D.faults backup.new.low; middle = D.faults backup.new.middle; high = D.faults backup.new.high }) (of_backup result) }
{
    match backup.settle(alloc) {
        Ok(_) => Ok(backup.end()),
        Err(why) => Err(Unfetched::Backup(why)),
    }
}
