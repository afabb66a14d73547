//! A database that is restored while the files of a backup are judged.
ghost use Rattle.std.specs.Prelude.{◌≡◌, ◌≢◌, ◌∷◌, [], IfOk, IfErr};
ghost use Rattle.ltx_codec.specs.Format.{IsFile};
ghost use Rattle.ltx_backup.specs.Levels.{Levels, chain};
ghost use Rattle.ltx_backup.specs.Making.{IsBlank, Makes, MakesAll, MakesLevel};
ghost use Rattle.ltx_backup.specs.Opening.{IsIndex};
ghost use Rattle.ltx_backup.specs.Ordered.{AllOrdered};
ghost use Rattle.ltx_backup.specs.Restoring.{Restores};
ghost use Rattle.ltx_backup.specs.declared.target.Target.{Target as ATarget};

use crate::entry::Index;
use crate::fault::BackupFault;
use crate::restored::Restored;
use crate::restoring::is_kept;
use lf_sqlite_pages::Image;
use ltx_codec::Ltx;
use std::alloc::Global;

/// What the files so far made of a database that was never written.
#[derive(Drop)]
pub enum Made {
    /// All of them were applied.
    Sound(Restored),
    /// This one was the first that didn't fit.
    Misfit { level: u8, min: u64, max: u64 },
}

/// A transaction, and what the files up to it made. Transaction 0 is before any file.
#[derive(Drop)]
pub struct Target {
    pub txid: u64,
    pub made: Made,
}

/// The database after a file, where the file fits it.
fn applied(alloc: Global, level: u8, before: Restored, file: Ltx) -> Result<Made, BackupFault>
    requires valid { IsFile file }
    ensures makes { IfOk result (Makes level (file ∷ []) (Made.Sound before)) }
    ensures full { IfErr result (λ why. why ≡ BackupFault.NoMemory) }
{
    if !before.image.fits(&file.change) {
        return Ok(Made::Misfit {
            level,
            min: file.header.min,
            max: file.header.max,
        });
    }
    match before.after(alloc, file) {
        Ok(next) => Ok(Made::Sound(next)),
        Err(_) => Err(BackupFault::NoMemory),
    }
}

impl Target {
    /// Before any file.
    pub fn new(alloc: Global, txid: u64) -> Target
        ensures txid { result.txid ≡ txid }
        ensures blank { IsBlank result.made }
    {
        Target {
            txid,
            made: Made::Sound(Restored::nothing(alloc)),
        }
    }

    /// The same after one more file of a level, which is left out where it ends past the transaction.
    pub fn after(self, alloc: Global, level: u8, file: Ltx) -> Result<Target, BackupFault>
        requires valid { IsFile file }
        ensures makes { IfOk result (MakesLevel level (file ∷ []) self) }
        ensures full { IfErr result (λ why. why ≡ BackupFault.NoMemory) }
    {
        if file.header.max > self.txid {
            return Ok(self);
        }
        let Target { txid, made } = self;
        match made {
            Made::Sound(before) => match applied(alloc, level, before, file) {
                Ok(made) => Ok(Target { txid, made }),
                Err(_) => Err(BackupFault::NoMemory),
            },
            misfit => Ok(Target { txid, made: misfit }),
        }
    }

    /// The database, where a file of the backup ends with the transaction.
    pub fn finish(self, index: &Index) -> Result<Image, BackupFault>
        ensures restores { (levels : Levels) (before : ATarget) → IsIndex levels index.now → AllOrdered (chain levels) → IsBlank before.made
            → MakesAll levels before self → Restores levels self.txid result }
        ensures disk { IfErr result (λ why. why ≢ BackupFault.Disk) }
    {
        let Target { txid, made } = self;
        if !is_kept(&index.entries, txid) {
            let last = index.end.txid;
            return Err(BackupFault::NoSuchTxid { txid, last });
        }
        match made {
            Made::Sound(restored) => match restored.finish() {
                Ok(image) => Ok(image),
                Err(why) => Err(why),
            },
            Made::Misfit { level, min, max } => Err(BackupFault::Damaged { level, min, max }),
        }
    }
}
