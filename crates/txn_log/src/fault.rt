//! Why a call on a store fails.
ghost use Rattle.std.specs.Prelude.{◌≡◌};
ghost use Rattle.txn_log.specs.FaultNumber.{number_of};

use lf_base::Pos;
use ltx_codec::LtxFault;

/// Why a store does not do a call. Where several fit, Broken comes first, then NotNext, PageSize,
/// Limit, SumDiffers and NoMemory; Disk comes where it happens.
#[derive(Clone, Copy, Debug, PartialEq, Eq)]
pub enum StoreFault {
    /// A call of the disk failed. Where it was to change something, the store is broken from then on.
    Disk,
    /// A changing call answered Disk since the store was opened.
    Broken,
    /// The file follows another position than the store's.
    NotNext { have: Pos, want: Pos },
    /// The file says another sum than the pages after it have.
    SumDiffers { want: u64, got: u64 },
    /// The database would be too large, or there is no further transaction number.
    Limit,
    NoMemory,
    /// The page sizes differ, the store has pages, and the file does not hold every data page.
    PageSize { have: u32, want: u32 },
}

impl StoreFault {
    pub fn number(&self) -> u8
        ensures { result ≡ number_of self.now }
    {
        match self {
            StoreFault::Disk => 1,
            StoreFault::Broken => 2,
            StoreFault::NotNext { .. } => 3,
            StoreFault::SumDiffers { .. } => 4,
            StoreFault::Limit => 5,
            StoreFault::NoMemory => 6,
            StoreFault::PageSize { .. } => 7,
        }
    }
}

/// Why a file that a source gives is not taken. Where several fit, Ltx comes first, then NotSnapshot,
/// Room and Store, also of a store that is broken; Source, and a Disk of the store, come where they
/// happen.
#[derive(Clone, Copy, Debug)]
pub enum FromFault {
    /// The source failed.
    Source,
    /// Its bytes are the encoding of no file.
    Ltx(LtxFault),
    /// The file is no snapshot: its first transaction is not 1.
    NotSnapshot,
    /// The database would have more pages than there is room for.
    Room { commit: u32 },
    /// The store does not do it. Want of memory does not come.
    Store(StoreFault),
}
