ghost use Rattle.std.specs.Prelude.{◌≡◌};
ghost use Rattle.database_file.specs.declared.fault.FileFault.TheVariants as file_fault;
ghost use Rattle.database_under_log.specs.declared.fault.LogWriteFault.TheVariants as fault;

use database_file::FileFault;
use lf_base::NoMemory;
use wal_watch::WalFault;

/// Why a write to the log failed. Everything is then as before.
#[derive(Clone, Copy, Debug, PartialEq, Eq)]
pub enum LogWriteFault {
    /// The log refuses it, or memory ran out there.
    Log(WalFault),
    /// What it commits has more pages than a database may have.
    TooManyPages,
    /// A page of the image could not be read, or memory ran out.
    File(FileFault),
}

impl From<WalFault> for LogWriteFault {
    ghost from_gives = { λ refusal f. f ≡ fault.Log refusal };

    fn from(refusal: WalFault) -> LogWriteFault {
        LogWriteFault::Log(refusal)
    }
}

impl From<FileFault> for LogWriteFault {
    ghost from_gives = { λ cause f. f ≡ fault.File cause };

    fn from(cause: FileFault) -> LogWriteFault {
        LogWriteFault::File(cause)
    }
}

impl From<NoMemory> for LogWriteFault {
    ghost from_gives = { λ _ f. f ≡ fault.File file_fault.NoMemory };

    fn from(_: NoMemory) -> LogWriteFault {
        LogWriteFault::File(FileFault::NoMemory)
    }
}
