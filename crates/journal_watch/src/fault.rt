ghost use Rattle.journal_watch.specs.declared.fault.JournalFault.TheVariants as fault;
ghost use Rattle.std.specs.Prelude.{◌≡◌};

use lf_base::NoMemory;

/// Why a journal refuses a change. After it nothing changed.
#[derive(Clone, Copy, Debug, PartialEq, Eq)]
pub enum JournalFault {
    /// The file would pass its limit.
    TooLong,
    /// Memory ran out.
    NoMemory,
}

impl From<NoMemory> for JournalFault {
    ghost from_gives = { λ _ f. f ≡ fault.NoMemory };

    fn from(_memory: NoMemory) -> JournalFault {
        JournalFault::NoMemory
    }
}
