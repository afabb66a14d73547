//! How a command on a backup ends, as the status of a run.
ghost use Rattle.std.specs.Prelude.{◌≡◌};
ghost use Rattle.litefs_tool.specs.Disks as spec;

use backup_link::Unfetched;
use http_exchange::Untold;
use lf_base::Status;
use ltx_backup::BackupFault;

pub(crate) fn status_of_backup(fault: BackupFault) -> Status
    ensures { result ≡ spec.status_of_backup fault }
{
    match fault {
        BackupFault::Disk | BackupFault::Broken => Status::DiskFault,
        BackupFault::NoMemory => Status::NoMemory,
        BackupFault::NotNext { .. }
        | BackupFault::NoSuchTxid { .. }
        | BackupFault::SumDiffers { .. }
        | BackupFault::Damaged { .. } => Status::InputRefused,
    }
}

/// The name of what is refused.
pub(crate) fn name_of_backup(fault: BackupFault) -> &'static str
    ensures { result.now ≡ spec.name_of_backup fault }
{
    match fault {
        BackupFault::NotNext { .. } => "NotNext",
        BackupFault::NoSuchTxid { .. } => "NoSuchTxid",
        BackupFault::SumDiffers { .. } => "SumDiffers",
        BackupFault::Damaged { .. } => "Damaged",
        BackupFault::Disk | BackupFault::Broken | BackupFault::NoMemory => "",
    }
}

pub(crate) fn status_of_unfetched(why: Unfetched) -> Status
    ensures { result ≡ spec.status_of_unfetched why }
{
    match why {
        Unfetched::Untold(Untold::Fault) => Status::NetworkFault,
        Unfetched::Untold(Untold::Unfit) => Status::InputRefused,
        Unfetched::Untold(Untold::TooLong | Untold::Turns) => Status::Limit,
        Unfetched::Untold(Untold::NoMemory) => Status::NoMemory,
        Unfetched::Reply | Unfetched::Dropped => Status::InputRefused,
        Unfetched::Backup(fault) => status_of_backup(fault),
    }
}

/// The name of what is refused.
pub(crate) fn name_of_unfetched(why: Unfetched) -> &'static str
    ensures { result.now ≡ spec.name_of_unfetched why }
{
    match why {
        Unfetched::Untold(Untold::Unfit) => "BadReply",
        Unfetched::Untold(_) => "",
        Unfetched::Reply => "Reply",
        Unfetched::Dropped => "Dropped",
        Unfetched::Backup(fault) => name_of_backup(fault),
    }
}
