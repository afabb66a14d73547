//! How a node ends, as the status of a run.
ghost use Rattle.std.specs.Prelude.{◌≡◌};
ghost use Rattle.litefs_tool.specs.Mount.{name_of_fault, status_of_fault};

use lf_base::Status;
use node_mount::MountFault;

pub fn status_of_fault(fault: MountFault) -> Status
    ensures { result ≡ status_of_fault fault }
{
    match fault {
        MountFault::Read => Status::ReadFault,
        MountFault::Config | MountFault::Damaged => Status::InputRefused,
        MountFault::Disk => Status::DiskFault,
        MountFault::Network => Status::NetworkFault,
        MountFault::NoThread => Status::NoThread,
        MountFault::Limit => Status::Limit,
        MountFault::NoMemory => Status::NoMemory,
    }
}

/// The name of what is refused.
pub fn name_of_fault(fault: MountFault) -> &'static str
    ensures { result.now ≡ name_of_fault fault }
{
    match fault {
        MountFault::Config => "Config",
        MountFault::Damaged => "Damaged",
        _ => "",
    }
}
