ghost use Rattle.std.specs.Prelude.{◌≡◌};

use lf_base::{Errno, NoMemory};

/// How a run ends. All but the first two leave the lock as it was, and no program was started.
#[derive(Clone, Copy, Debug, PartialEq, Eq)]
pub enum ChildEnd {
    /// The program has run under the lock and ended with this status; 255 where a signal ended it. What
    /// failed after its end doesn't hide the status.
    Ended(u8),
    /// The lock was granted and the program could not be started: the starter's count of faults rose.
    NotStarted,
    /// One of the first four requests was answered by this error.
    Refused(Errno),
    /// The link's count of faults rose, at a read.
    ReadFault,
    /// The link's count of faults rose, at a write.
    WriteFault,
    /// What was read is no reply to the request that was sent, or the input ended inside it.
    BadMessage,
    /// As many bytes were read as may be, and the reply was not whole.
    Turns,
    /// Memory ran out, before the lock was asked for.
    NoMemory,
}

impl From<NoMemory> for ChildEnd {
    ghost use Rattle.run_child.specs.declared.child_end.ChildEnd.TheVariants as ends;

    ghost from_gives = { λ _ end. end ≡ ends.NoMemory };

    fn from(_memory: NoMemory) -> ChildEnd {
        ChildEnd::NoMemory
    }
}
