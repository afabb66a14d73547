ghost use Rattle.std.specs.Prelude.{◌≡◌};
ghost use Rattle.backup_link.specs.Endings.{untold_of};
ghost use Rattle.backup_link.specs.declared.unfetched.Unfetched.TheVariants as unfetched;

use http_exchange::Untold;
use ltx_backup::BackupFault;
use stream_wire::WireFault;

/// Why a backup isn't level with its node. The files that were added before stay.
#[derive(Clone, Copy, Debug, PartialEq, Eq)]
pub enum Unfetched {
    /// The node gave no stream, or it ended before the backup was level.
    Untold(Untold),
    /// Its reply has another status than 200.
    Reply,
    /// Its database was dropped.
    Dropped,
    /// The backup refused a file.
    Backup(BackupFault),
}

impl From<Untold> for Unfetched {
    ghost from_gives = { λ why f. f ≡ unfetched.Untold why };

    fn from(why: Untold) -> Unfetched {
        Unfetched::Untold(why)
    }
}

/// What bytes that begin no frame are to a reply.
pub(crate) fn untold_of(fault: WireFault) -> Untold
    ensures { result ≡ untold_of fault }
{
    match fault {
        WireFault::TooLong { .. } => Untold::TooLong,
        WireFault::NoMemory => Untold::NoMemory,
        WireFault::Head | WireFault::Length | WireFault::Kind { .. } | WireFault::NameText => {
            Untold::Unfit
        }
    }
}
