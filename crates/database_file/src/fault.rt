ghost use Rattle.std.specs.Prelude.{◌≡◌};
ghost use Rattle.database_file.specs.declared.fault.FileFault.TheVariants as fault;

use lf_base::{Failed, NoMemory};

/// Why a call failed. The file is then as before.
#[derive(Clone, Copy, Debug, PartialEq, Eq)]
pub enum FileFault {
    /// A page of the committed image could not be read.
    Unread,
    NoMemory,
}

impl From<NoMemory> for FileFault {
    ghost from_gives = { λ _ f. f ≡ fault.NoMemory };

    fn from(_: NoMemory) -> FileFault {
        FileFault::NoMemory
    }
}

impl From<Failed> for FileFault {
    ghost from_gives = { λ _ f. f ≡ fault.Unread };

    fn from(_: Failed) -> FileFault {
        FileFault::Unread
    }
}
