ghost use Rattle.std.specs.Prelude.{◌≡◌};
ghost use Rattle.test_base.specs.declared.fault.Fault.TheVariants as fault;

use lf_base::NoMemory;
use std::alloc::{AllocError, AllocFailed};
use std::io;

/// Why a program of rows stopped before its end.
#[derive(Clone, Copy, Debug)]
pub enum Fault {
    /// A file was not read, or nothing could be printed.
    Io,
    /// A row, or a line of a record, is not as it is to be, or stands where it cannot.
    Row,
    /// What a scene begins with could not be made.
    Start,
    /// The disk that was left did not give its files.
    Left,
    /// The desk took no more steps.
    Worn,
    /// A node gave no answer of the kind that was wanted.
    Answer,
    NoMemory,
}

impl From<NoMemory> for Fault {
    ghost from_gives = { λ _ f. f ≡ fault.NoMemory };

    fn from(_want: NoMemory) -> Fault {
        Fault::NoMemory
    }
}

/// What could not be used for want of memory comes back with it.
impl<T: Drop> From<(NoMemory, T)> for Fault {
    ghost from_gives = { λ _ f. f ≡ fault.NoMemory };

    fn from(_want: (NoMemory, T)) -> Fault {
        Fault::NoMemory
    }
}

impl From<AllocError> for Fault {
    ghost from_gives = { λ _ f. f ≡ fault.NoMemory };

    fn from(_want: AllocError) -> Fault {
        Fault::NoMemory
    }
}

impl<T: Drop> From<AllocFailed<T>> for Fault {
    ghost from_gives = { λ _ f. f ≡ fault.NoMemory };

    fn from(_want: AllocFailed<T>) -> Fault {
        Fault::NoMemory
    }
}

impl From<io::Error> for Fault {
    ghost from_gives = { λ _ f. f ≡ fault.Io };

    fn from(_error: io::Error) -> Fault {
        Fault::Io
    }
}

impl From<serde_json::Error> for Fault {
    ghost from_gives = { λ _ f. f ≡ fault.Row };

    fn from(_error: serde_json::Error) -> Fault {
        Fault::Row
    }
}

impl From<hex::FromHexError> for Fault {
    ghost from_gives = { λ _ f. f ≡ fault.Row };

    fn from(_error: hex::FromHexError) -> Fault {
        Fault::Row
    }
}
