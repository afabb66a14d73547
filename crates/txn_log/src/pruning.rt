//! A log loses its first files.
ghost use Rattle.std.specs.Prelude.{◌≡◌, ◌≤◌, length, drop, IsTrue};
ghost use Rattle.world_laws.specs.Store.{PruneTo};
ghost use Rattle.txn_log.specs.Fields.{CallBreaks, CallWent, HasShape, PrunesBy};
ghost use Rattle.txn_log.specs.Store.{end_of_entries};

use crate::entry::{Attempt, Entry};
use crate::fault::StoreFault;
use crate::settling::remove_files;
use crate::store::Store;
use lf_disk::Disk;

fn forget_front(entries: &mut Vec<Entry>, count: usize)
    requires { count ≤ length entries.old.items }
    ensures { entries.new.items ≡ drop count entries.old.items }
{
    for _i in 0..count {
        entries.remove(0);
    }
}

impl<D: Disk> Store<D> {
    /// Removes all but the last `keep` files of the log, the oldest first, and answers how many.
    pub fn prune(&mut self, keep: u64) -> Result<u64, StoreFault>
        requires { 1 ≤ keep }
        ensures prunes { PrunesBy self.old keep result }
        ensures cause { CallBreaks self.old result self.new }
        ensures shape { HasShape self.new self.old.page_size self.old.commit }
        ensures position { end_of_entries self.new.entries.items ≡ end_of_entries self.old.entries.items }

        // What a crash leaves at each moment.
        ensures went { IsTrue (D.honest self.old.disk) → CallWent self.old (PruneTo keep) result self.new }
        ensures honest { D.honest self.new.disk ≡ D.honest self.old.disk }
    {
        if self.broken {
            return Err(StoreFault::Broken);
        }
        let gone = (self.entries.len() as u64).saturating_sub(keep) as usize;
        if gone == 0 {
            return Ok(0);
        }
        self.whole = self.disk.moment();
        let (front, _) = self.entries.as_slice().split_at(gone);
        match remove_files(&mut self.disk, front) {
            Ok(()) => {
                forget_front(&mut self.entries, gone);
                Ok(gone as u64)
            }
            Err(_) => {
                self.broken = true;
                self.attempt = Attempt::Prune { keep };
                self.tried = self.whole;
                Err(StoreFault::Disk)
            }
        }
    }
}
