//! Memory is taken for later calls.
ghost use Rattle.std.specs.Prelude.{◌≡◌, ◌<◌, ◌≤◌, length, vec_capacity, IsSome, OnOk};
ghost use Rattle.txn_log.specs.Renewing.{spare_in};
ghost use Rattle.txn_log.specs.Reserve.{spare_of};

use crate::entry::Entry;
use crate::reserved::Reserved;
use crate::store::Store;
use lf_base::NoMemory;
use lf_disk::Disk;
use page_checksum::Sums;
use std::alloc::Global;

/// Makes room for one more entry, and for the sums of `more` pages more.
fn take_room(entries: &mut Vec<Entry>, sums: &mut Sums, more: u32) -> Result<(), NoMemory>
    ensures entries { entries.new.items ≡ entries.old.items }
    ensures entry { OnOk result (length entries.new.items < vec_capacity entries.new) }
    ensures sums { sums.new.sums ≡ sums.old.sums }
    ensures spare { OnOk result (more ≤ sums.new.spare) }
    ensures no_less { sums.old.spare ≤ sums.new.spare }
{
    entries.reserve(1)?;
    sums.reserve(more)?;
    Ok(())
}

impl<D: Disk> Store<D> {
    /// Sees to it that the store can come to have `pages` pages, and one more file, without taking
    /// memory, and makes the decoder for that file. After want of memory nothing changed but room.
    pub fn reserve(&mut self, pages: u32) -> Result<(), NoMemory>
        ensures pages { OnOk result (pages ≤ spare_of self.new.sums) }
        ensures entry { OnOk result (length self.new.entries.items < vec_capacity self.new.entries) }
        ensures decoder { OnOk result (IsSome self.new.decoder) }
        ensures room { OnOk result (pages ≤ spare_in self.new.decoder) }
        ensures no_less { spare_of self.old.sums ≤ spare_of self.new.sums }
        ensures tables { (self.new.entries.items ≡ self.old.entries.items) × (self.new.sums.sums ≡ self.old.sums.sums) }
        ensures same { (self.new.disk ≡ self.old.disk) × (self.new.page_size ≡ self.old.page_size) × (self.new.commit ≡ self.old.commit)
            × (self.new.wal ≡ self.old.wal) × (self.new.dropped ≡ self.old.dropped) × (self.new.refused ≡ self.old.refused)
            × (self.new.broken ≡ self.old.broken) × (self.new.whole ≡ self.old.whole) × (self.new.attempt ≡ self.old.attempt)
            × (self.new.tried ≡ self.old.tried) }
    {
        let more = pages.saturating_sub(self.commit);
        take_room(&mut self.entries, &mut self.sums, more)?;
        renew(*self.entries.allocator(), &mut self.decoder, pages)?;
        Ok(())
    }
}

/// Sees to it that there is room for so many pages. After want of memory nothing changed.
pub fn renew(alloc: Global, reserved: &mut Option<Reserved>, pages: u32) -> Result<(), NoMemory>
    ensures some { OnOk result (IsSome reserved.new) }
    ensures room { OnOk result (pages ≤ spare_in reserved.new) }
{
    match reserved.take() {
        Some(mut old) => {
            let grown = old.grow(pages);
            *reserved = Some(old);
            grown
        }
        None => {
            let mut new = Reserved::new(alloc)?;
            new.grow(pages)?;
            *reserved = Some(new);
            Ok(())
        }
    }
}
