//! A data directory is opened after a stop.
ghost use Rattle.std.specs.Prelude.{◌≡◌, false, true, None, IsTrue, IfOk, IfErr};
ghost use Rattle.lf_disk.specs.History.{now, Rests, EachMoment};
ghost use Rattle.lf_disk.specs.declared.name.FileName.{FileName as Name};
ghost use Rattle.world_laws.specs.Store.{StoreState};
ghost use Rattle.txn_log.specs.Durable.{Durable};
ghost use Rattle.txn_log.specs.Putting.{IsSettled};
ghost use Rattle.txn_log.specs.Store.{state_of};
ghost use Rattle.node_recovery.specs.Finding.{HasDamage};
ghost use Rattle.node_recovery.specs.Opening.{IsWhy, IsCause};
ghost use Rattle.node_recovery.specs.Outcome.{IsBlameless};

use crate::fault::RecoverFault;
use crate::reopening::reopen;
use lf_disk::Disk;
use std::alloc::Global;
use txn_log::Store;

/// Opens the store of a disk. Everything is read and judged before the disk is changed. A disk
/// without files gives the store of a database that was never written.
pub fn recover<D: Disk>(alloc: Global, disk: D) -> Result<Store<D>, (RecoverFault, D)>
    requires { IsTrue (D.honest disk) → IsSettled (D.history disk) }
    ensures store { IsTrue (D.honest disk) → IfOk result (λ store. (stood : StoreState) → Durable (now (D.history disk)) stood
        → state_of (D.history store.disk) store.page_size store.commit store.entries.items store.dropped store.broken store.whole ≡ stood) }
    ensures open_ { IfOk result (λ store. store.broken ≡ false) }
    ensures honest { (IfOk result (λ store. D.honest store.disk ≡ D.honest disk)) × (IfErr result (λ gone. D.honest gone.1 ≡ D.honest disk)) }
    ensures why { IsTrue (D.honest disk) → IfErr result (λ gone. IsWhy (now (D.history disk)) gone.0) }
    ensures cause { (IfOk result (λ store. D.faults store.disk ≡ D.faults disk))
        × (IfErr result (λ gone. IsCause (D.faults disk) (D.faults gone.1) gone.0)) }

    // Nothing is left staged, and the mark of a dropped database is as it was.
    ensures staged { IsTrue (D.honest disk) → IfOk result (λ store. now (D.history store.disk) Name.Staged ≡ None) }
    ensures mark { IsTrue (D.honest disk) → IfOk result (λ store. store.dropped ≡ true
        → now (D.history store.disk) Name.Dropped ≡ now (D.history disk) Name.Dropped) }

    // A folder with damage is not opened, and was only read.
    ensures exact { IsTrue (D.honest disk) → IfOk result (λ _. HasDamage (now (D.history disk)) → ⊥) }
    ensures untouched { IsTrue (D.honest disk) → IfErr result (λ gone. HasDamage (now (D.history disk))
        → Rests (D.history disk) (D.history gone.1)) }

    // On a folder that stands for a store nothing is damaged.
    ensures sound { IsTrue (D.honest disk) → IfErr result (λ gone. (stood : StoreState) → Durable (now (D.history disk)) stood → IsBlameless gone.0) }

    // At each moment a crash leaves a folder that stands for the same store.
    ensures moments { IsTrue (D.honest disk) → IfOk result (λ store. (stood : StoreState) → Durable (now (D.history disk)) stood
        → EachMoment (D.history disk) (D.history store.disk) (λ c. Durable c stood)) }
    ensures gone { IsTrue (D.honest disk) → IfErr result (λ gone. (stood : StoreState) → Durable (now (D.history disk)) stood
        → EachMoment (D.history disk) (D.history gone.1) (λ c. Durable c stood)) }
{
    let mut disk = disk;
    match reopen(alloc, &mut disk) {
        Ok(opened) => Ok(Store::at_rest(
            disk,
            opened.entries,
            opened.sums,
            opened.page_size,
            opened.commit,
            opened.wal,
            opened.dropped,
        )),
        Err(why) => Err((why, disk)),
    }
}
