//! How a run of a program ends, as the status of the command.
ghost use Rattle.std.specs.Prelude.{◌≡◌};
ghost use Rattle.litefs_tool.specs.Running.{name_of_child, status_of_child};

use lf_base::Status;
use run_child::ChildEnd;

pub(crate) fn status_of_child(end: ChildEnd) -> Status
    ensures { result ≡ status_of_child end }
{
    match end {
        ChildEnd::Ended(status) => Status::Program(status),
        ChildEnd::NotStarted => Status::NotStarted,
        ChildEnd::Refused(_) => Status::LockRefused,
        ChildEnd::ReadFault | ChildEnd::WriteFault => Status::NetworkFault,
        ChildEnd::BadMessage => Status::InputRefused,
        ChildEnd::Turns => Status::Limit,
        ChildEnd::NoMemory => Status::NoMemory,
    }
}

/// The name of what is refused.
pub(crate) fn name_of_child(end: ChildEnd) -> &'static str
    ensures { result.now ≡ name_of_child end }
{
    match end {
        ChildEnd::BadMessage => "BadReply",
        _ => "",
    }
}
