ghost use Rattle.std.specs.Prelude.{◌≡◌};
ghost use Rattle.lf_disk.specs.declared.list_fault.ListFault.TheVariants as fault;

use std::alloc::AllocError;

/// Why the names were not listed.
#[derive(Clone, Copy, Debug, PartialEq, Eq)]
pub enum ListFault {
    /// The disk failed.
    Failed,
    /// There was no memory for the list.
    NoMemory,
}

impl From<AllocError> for ListFault {
    ghost from_gives = { λ _ e. e ≡ fault.NoMemory };

    fn from(_error: AllocError) -> ListFault {
        ListFault::NoMemory
    }
}
