ghost use Rattle.std.specs.Prelude.{◌≡◌};
ghost use Rattle.byte_locks.specs.declared.set_fault.SetFault.TheVariants as set_fault;

use crate::{LockId, Owner};
use lf_base::NoMemory;

/// Why locks were not granted. The table is then as before.
#[derive(Clone, Copy, Debug, PartialEq, Eq)]
pub enum SetFault {
    /// Another owner holds one of the locks, and one of the two kinds is for writing: the first such
    /// lock in order, and its oldest such holder.
    Conflict { lock: LockId, holder: Owner },
    /// No lock is in conflict, but this one, the first such, has 1,024 holders and the owner is none
    /// of them.
    Full { lock: LockId },
    /// Memory ran out.
    NoMemory,
}

impl From<NoMemory> for SetFault {
    ghost from_gives = { λ _ fault. fault ≡ set_fault.NoMemory };

    fn from(_: NoMemory) -> SetFault {
        SetFault::NoMemory
    }
}
