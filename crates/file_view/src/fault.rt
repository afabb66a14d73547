ghost use Rattle.std.specs.Prelude.{◌≡◌};
ghost use Rattle.file_view.specs.declared.fault.ViewFault.TheVariants as fault;

use crate::errno::{EFBIG, EINVAL, ENOSPC, EPERM};
use database_file::FileFault;
use database_under_log::LogWriteFault;
use lf_base::{Errno, Failed, NoMemory};
use wal_watch::WalFault;

/// Why a request was refused. The served files are then as before.
#[derive(Clone, Copy, Debug)]
pub enum ViewFault {
    /// A rule refuses it, with this number.
    Errno(Errno),
    /// A page of the committed image could not be read.
    Page(Failed),
    NoMemory,
}

impl From<NoMemory> for ViewFault {
    ghost from_gives = { λ _ f. f ≡ fault.NoMemory };

    fn from(_: NoMemory) -> ViewFault {
        ViewFault::NoMemory
    }
}

impl From<Errno> for ViewFault {
    ghost from_gives = { λ e f. f ≡ fault.Errno e };

    fn from(errno: Errno) -> ViewFault {
        ViewFault::Errno(errno)
    }
}

impl From<Failed> for ViewFault {
    ghost from_gives = { λ e f. f ≡ fault.Page e };

    fn from(failed: Failed) -> ViewFault {
        ViewFault::Page(failed)
    }
}

impl From<FileFault> for ViewFault {
    ghost use Rattle.file_view.specs.FileFaults.{IsFault};

    ghost from_gives = { IsFault };

    fn from(file: FileFault) -> ViewFault {
        match file {
            FileFault::Unread => ViewFault::Page(Failed),
            FileFault::NoMemory => ViewFault::NoMemory,
        }
    }
}

impl From<LogWriteFault> for ViewFault {
    ghost use Rattle.file_view.specs.LogParts.{IsLogFault};

    ghost from_gives = { IsLogFault };

    fn from(write: LogWriteFault) -> ViewFault {
        match write {
            LogWriteFault::Log(WalFault::TooLong) => ViewFault::Errno(ENOSPC),
            LogWriteFault::Log(WalFault::Header) => ViewFault::Errno(EINVAL),
            LogWriteFault::Log(WalFault::Part) => ViewFault::Errno(EPERM),
            LogWriteFault::Log(WalFault::NoMemory) => ViewFault::NoMemory,
            LogWriteFault::TooManyPages => ViewFault::Errno(EFBIG),
            LogWriteFault::File(cause) => cause.into(),
        }
    }
}
