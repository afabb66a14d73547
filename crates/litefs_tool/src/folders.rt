//! The three folders of a backup, and the disks that a maker gives for them.
ghost use Rattle.std.specs.Prelude.{◌≡◌, ◌<◌, ◌⊎◌, IfErr, IfOk, OnErr, OnOk};
ghost use Rattle.node_objects.specs.Making.{DisksRose, IsAtRest};
ghost use Rattle.node_mount.specs.Returns.{GivesBack};
ghost use Rattle.litefs_tool.specs.Disks.{all_three, folders_of, GaveFewer, GaveThree};

use crate::backup_words::has_room;
use backup_link::{Disks, level_name};
use lf_base::{Failed, Name, NoMemory};
use lf_disk::Disk;
use node_objects::Maker;
use std::alloc::Global;

/// The names of a backup's folders, the lowest level's first.
#[derive(Drop)]
pub struct Folders {
    pub low: Name,
    pub middle: Name,
    pub high: Name,
}

impl Folders {
    /// The folders of a database's backup.
    pub(crate) fn of(alloc: Global, name: &Name) -> Result<Folders, NoMemory>
        ensures { IfOk result (λ folders. folders ≡ folders_of name.now) }
    {
        // The words have no longer name.
        if !has_room(name) {
            return Err(NoMemory);
        }
        Ok(Folders {
            low: level_name(alloc, name, 0)?,
            middle: level_name(alloc, name, 1)?,
            high: level_name(alloc, name, 2)?,
        })
    }

    /// Their disks, one after another. Where one is not to be had, those before it go back.
    pub(crate) fn take_disks<M: Maker>(&self, make: &mut M) -> Result<Disks<M::Disk>, Failed>
        ensures gave { IfOk result (λ disks. GaveThree M.asked M.may_give self.now make.old make.new (record { low = disks.low; middle = disks.middle; high = disks.high })) }
        ensures sound { IfOk result (λ disks. (M.Disk.faults disks.low ≡ 0) × (M.Disk.faults disks.middle ≡ 0) × (M.Disk.faults disks.high ≡ 0)) }
        ensures rest { IfOk result (λ disks. IsAtRest (M.Disk.honest disks.low) (M.Disk.history disks.low) × IsAtRest (M.Disk.honest disks.middle) (M.Disk.history disks.middle)
            × IsAtRest (M.Disk.honest disks.high) (M.Disk.history disks.high)) }
        ensures same { OnOk result ((M.back make.new ≡ M.back make.old) × (M.counts make.new ≡ M.counts make.old)) }
        ensures fewer { OnErr result (GaveFewer M.asked M.may_give M.back self.now make.old make.new) }
        ensures rose { OnErr result (DisksRose (M.counts make.old) (M.counts make.new)) }
    {
        let low = make.disk(&self.low)?;
        let middle = match make.disk(&self.middle) {
            Ok(disk) => disk,
            Err(failed) => {
                make.back_disk(low);
                return Err(failed);
            }
        };
        let high = match make.disk(&self.high) {
            Ok(disk) => disk,
            Err(failed) => {
                make.back_disk(low);
                make.back_disk(middle);
                return Err(failed);
            }
        };
        Ok(Disks { low, middle, high })
    }
}

/// Gives all three disks back.
pub(crate) fn give_back<M: Maker>(disks: Disks<M::Disk>, make: &mut M)
    ensures back { GivesBack (all_three (record { low = disks.low; middle = disks.middle; high = disks.high })) (M.back make.old) (M.back make.new) }
    ensures kept { M.asked make.new ≡ M.asked make.old }
    ensures still { M.Disk.faults disks.low ≡ 0 → M.Disk.faults disks.middle ≡ 0 → M.Disk.faults disks.high ≡ 0 → M.counts make.new ≡ M.counts make.old }
    ensures rose { (0 < M.Disk.faults disks.low) ⊎ ((0 < M.Disk.faults disks.middle) ⊎ (0 < M.Disk.faults disks.high)) → DisksRose (M.counts make.old) (M.counts make.new) }
{
    let Disks { low, middle, high } = disks;
    make.back_disk(low);
    make.back_disk(middle);
    make.back_disk(high);
}
