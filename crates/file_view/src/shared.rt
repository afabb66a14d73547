//! WRITE, SETATTR of a size and UNLINK of the shared memory.
ghost use Rattle.std.specs.Prelude.{◌≡◌, IsSome, IfErr, OnOk, OnErr, length};
ghost use Rattle.file_view.specs.Needs as needs;
ghost use Rattle.file_view.specs.SharedRules.{shared_rows, shared_written, shared_cut, shared_removed};
ghost use Rattle.file_view.specs.Refusal.{IsAllowed, HasCause};

use crate::errno::ENOSPC;
use crate::fault::ViewFault;
use crate::view::View;
use shm_index::SHM_LIMIT;

impl View {
    /// WRITE to the shared memory.
    pub(crate) fn write_shared(&mut self, at: u64, bytes: &[u8]) -> Result<(), ViewFault>
        requires { IsSome self.old.shared.file }
        ensures done { OnOk result (self.new ≡ shared_written self.old at bytes.now) }
        ensures allowed { OnOk result (IsAllowed (shared_rows at (length bytes.now))) }
        ensures cause { IfErr result (HasCause needs.Memory (shared_rows at (length bytes.now))) }
        ensures err { OnErr result (self.new ≡ self.old) }
    {
        let count = bytes.len() as u64;
        if at > SHM_LIMIT || count > SHM_LIMIT - at {
            return Err(ViewFault::Errno(ENOSPC));
        }
        self.shared.write(at, bytes)?;
        Ok(())
    }

    /// SETATTR of a size of the shared memory.
    pub(crate) fn resize_shared(&mut self, len: u64) -> Result<(), ViewFault>
        requires { IsSome self.old.shared.file }
        ensures done { OnOk result (self.new ≡ shared_cut self.old len) }
        ensures allowed { OnOk result (IsAllowed (shared_rows 0 len)) }
        ensures cause { IfErr result (HasCause needs.Nothing (shared_rows 0 len)) }
        ensures err { OnErr result (self.new ≡ self.old) }
    {
        if len > SHM_LIMIT {
            return Err(ViewFault::Errno(ENOSPC));
        }
        self.shared.cut(len);
        Ok(())
    }

    /// UNLINK of the shared memory.
    pub(crate) fn remove_shared(&mut self)
        ensures { self.new ≡ shared_removed self.old }
    {
        self.shared.remove();
    }
}
