ghost use Rattle.std.specs.Prelude.{◌≡◌};
ghost use Rattle.wal_watch.specs.declared.fault.WalFault.TheVariants as variant;

use lf_base::NoMemory;

/// Why a write or a cut was refused. The file is as before.
#[derive(Clone, Copy, Debug, PartialEq, Eq)]
pub enum WalFault {
    /// It passes the limit of a WAL file.
    TooLong,
    /// It leaves no valid header, or one of another page size.
    Header,
    /// A committed frame would change, or a cut would commit one.
    Part,
    /// Memory ran out.
    NoMemory,
}

impl From<NoMemory> for WalFault {
    ghost from_gives = { λ _ fault. fault ≡ variant.NoMemory };

    fn from(_memory: NoMemory) -> WalFault {
        WalFault::NoMemory
    }
}
