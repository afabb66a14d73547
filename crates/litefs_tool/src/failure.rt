ghost use Rattle.std.specs.Prelude.{◌≡◌};
ghost use Rattle.litefs_tool.specs.steps.Failure.{status_of_failure, name_of_failure};
ghost use Rattle.litefs_tool.specs.declared.failure.Failure.TheVariants as failure;

use crate::backup_failure::{
    name_of_backup, name_of_unfetched, status_of_backup, status_of_unfetched,
};
use crate::child_failure::{name_of_child, status_of_child};
use crate::compact_refusal::CompactRefusal;
use crate::input::InputFault;
use crate::mounting::{name_of_fault, status_of_fault};
use crate::refusal::Refusal;
use backup_link::Unfetched;
use http_exchange::Untold;
use lf_base::{Failed, NoMemory, Status};
use ltx_backup::BackupFault;
use node_mount::MountFault;
use run_child::ChildEnd;

/// Why a run ends before its output is whole.
#[derive(Clone, Copy, Debug, PartialEq, Eq)]
pub enum Failure {
    /// The arguments are no command's.
    Arguments,
    /// The input was not read whole.
    Input(InputFault),
    /// The files in the input do not make a database.
    Files(Refusal),
    /// The files in the input do not become one.
    Compaction(CompactRefusal),
    /// The node, or the lease service, did not start, or stopped serving.
    Mount(MountFault),
    /// A node that was asked gave no whole reply.
    Untold(Untold),
    /// Its reply has another status than 200.
    Reply,
    /// The body of its reply is none that the command takes.
    BadReply,
    /// A backup can't be restored to a transaction.
    Backup(BackupFault),
    /// A backup isn't level with its node.
    Unfetched(Unfetched),
    /// A socket could not be dialed.
    Undialed,
    /// A run of a program ended so; a program that has ended is its own cause.
    Child(ChildEnd),
    /// The output failed.
    Output,
    /// Memory ran out before anything was written.
    NoMemory,
}

impl From<NoMemory> for Failure {
    ghost from_gives = { λ _ f. f ≡ failure.NoMemory };

    fn from(_want: NoMemory) -> Failure {
        Failure::NoMemory
    }
}

impl From<InputFault> for Failure {
    ghost from_gives = { λ fault f. f ≡ failure.Input fault };

    fn from(fault: InputFault) -> Failure {
        Failure::Input(fault)
    }
}

impl From<Refusal> for Failure {
    ghost from_gives = { λ why f. f ≡ failure.Files why };

    fn from(refusal: Refusal) -> Failure {
        Failure::Files(refusal)
    }
}

impl From<CompactRefusal> for Failure {
    ghost from_gives = { λ why f. f ≡ failure.Compaction why };

    fn from(refusal: CompactRefusal) -> Failure {
        Failure::Compaction(refusal)
    }
}

impl From<MountFault> for Failure {
    ghost from_gives = { λ why f. f ≡ failure.Mount why };

    fn from(fault: MountFault) -> Failure {
        Failure::Mount(fault)
    }
}

impl From<Untold> for Failure {
    ghost from_gives = { λ why f. f ≡ failure.Untold why };

    fn from(why: Untold) -> Failure {
        Failure::Untold(why)
    }
}

impl From<BackupFault> for Failure {
    ghost from_gives = { λ why f. f ≡ failure.Backup why };

    fn from(why: BackupFault) -> Failure {
        Failure::Backup(why)
    }
}

impl From<Unfetched> for Failure {
    ghost from_gives = { λ why f. f ≡ failure.Unfetched why };

    fn from(why: Unfetched) -> Failure {
        Failure::Unfetched(why)
    }
}

impl From<Failed> for Failure {
    ghost from_gives = { λ _ f. f ≡ failure.Output };

    fn from(_failed: Failed) -> Failure {
        Failure::Output
    }
}

impl Failure {
    /// The status that the run ends with.
    pub fn status(self) -> Status
        ensures { result ≡ status_of_failure self }
    {
        match self {
            Failure::Arguments => Status::WordsRefused,
            Failure::Input(InputFault::Failed) => Status::ReadFault,
            Failure::Input(InputFault::TooLong) => Status::Limit,
            Failure::Input(InputFault::NoMemory) => Status::NoMemory,
            Failure::Files(Refusal::NoMemory) => Status::NoMemory,
            Failure::Files(_) => Status::InputRefused,
            Failure::Compaction(CompactRefusal::NoMemory) => Status::NoMemory,
            Failure::Compaction(_) => Status::InputRefused,
            Failure::Mount(fault) => status_of_fault(fault),
            Failure::Untold(Untold::Fault) => Status::NetworkFault,
            Failure::Untold(Untold::Unfit) => Status::InputRefused,
            Failure::Untold(Untold::TooLong | Untold::Turns) => Status::Limit,
            Failure::Untold(Untold::NoMemory) => Status::NoMemory,
            Failure::Reply | Failure::BadReply => Status::InputRefused,
            Failure::Backup(fault) => status_of_backup(fault),
            Failure::Unfetched(why) => status_of_unfetched(why),
            Failure::Undialed => Status::NetworkFault,
            Failure::Child(end) => status_of_child(end),
            Failure::Output => Status::WriteFault,
            Failure::NoMemory => Status::NoMemory,
        }
    }

    /// The name of the fault where the input is refused, and else nothing.
    pub fn fault_name(self) -> &'static str
        ensures { result.now ≡ name_of_failure self }
    {
        match self {
            Failure::Files(Refusal::NoMemory) => "",
            Failure::Files(refusal) => refusal.name(),
            Failure::Compaction(CompactRefusal::NoMemory) => "",
            Failure::Compaction(refusal) => refusal.name(),
            Failure::Mount(fault) => name_of_fault(fault),
            Failure::Backup(fault) => name_of_backup(fault),
            Failure::Unfetched(why) => name_of_unfetched(why),
            Failure::Child(end) => name_of_child(end),
            Failure::Reply => "Reply",
            Failure::BadReply | Failure::Untold(Untold::Unfit) => "BadReply",
            _ => "",
        }
    }
}
