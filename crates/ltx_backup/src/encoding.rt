//! A file as the bytes that stand on a disk.
ghost use Rattle.std.specs.Prelude.{◌≡◌, IfOk, IfErr};
ghost use Rattle.ltx_codec.specs.Format.{IsFile, IsLtx};
ghost use Rattle.ltx_backup.specs.Stored.{stored};

use crate::fault::BackupFault;
use ltx_codec::{Ltx, encode};
use std::alloc::Global;

/// The encoding of a file.
pub fn encoded(alloc: Global, file: &Ltx) -> Result<Vec<u8>, BackupFault>
    requires { IsFile file.now }
    ensures bytes { IfOk result (λ bytes. bytes.items ≡ stored file.now) }
    ensures reads_back { IsLtx (stored file.now) file.now }
    ensures full { IfErr result (λ why. why ≡ BackupFault.NoMemory) }
{
    let mut bytes = Vec::new(alloc);
    match encode(file, &mut bytes) {
        Ok(()) => Ok(bytes),
        Err(_) => Err(BackupFault::NoMemory),
    }
}
