//! What stands in a folder.
ghost use Rattle.std.specs.Prelude.{◌≡◌, IsTrue, IfOk, IfErr, map};
ghost use Rattle.lf_disk.specs.History.{now, Rests};
ghost use Rattle.node_recovery.specs.Listing.{numbers_of, AreListed};
ghost use Rattle.node_recovery.specs.Outcome.{HasCause, IsBlameless};

use crate::fault::RecoverFault;
use lf_base::{NoMemory, Pos};
use lf_disk::{Disk, ListFault, Numbers, list_numbers};
use std::alloc::Global;
use txn_log::Entry;

/// The position of a file that was not read yet.
const UNREAD: Pos = Pos { txid: 0, sum: 0 };

/// An entry for each file of these numbers. Their positions are not known yet.
fn entries_of(alloc: Global, names: &[Numbers]) -> Result<Vec<Entry>, NoMemory>
    ensures { IfOk result (λ entries. map numbers_of entries.items ≡ names.now) }
{
    let mut entries = Vec::new(alloc);
    for name in names {
        entries.push(Entry {
            min: name.min,
            max: name.max,
            pre: UNREAD,
            post: UNREAD,
        })?;
    }
    Ok(entries)
}

/// The transaction files on a disk, by minimum and then maximum, each once.
pub fn list_log<D: Disk>(alloc: Global, disk: &mut D) -> Result<Vec<Entry>, RecoverFault>
    ensures listed { IsTrue (D.honest disk.old) → IfOk result (λ entries. AreListed entries.items (now (D.history disk.old))) }
    ensures blameless { IfErr result IsBlameless }
    ensures rests { Rests (D.history disk.old) (D.history disk.new) }
    ensures honest { D.honest disk.new ≡ D.honest disk.old }
    ensures cause { HasCause (D.faults disk.old) (D.faults disk.new) result }
{
    let names = match list_numbers(alloc, disk) {
        Ok(names) => names,
        Err(ListFault::Failed) => return Err(RecoverFault::Disk),
        Err(ListFault::NoMemory) => return Err(RecoverFault::NoMemory),
    };
    match entries_of(alloc, names.as_slice()) {
        Ok(entries) => Ok(entries),
        Err(_) => Err(RecoverFault::NoMemory),
    }
}
