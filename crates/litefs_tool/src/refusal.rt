ghost use Rattle.std.specs.Prelude.{◌≡◌};
ghost use Rattle.litefs_tool.specs.Refusal.{refusal_name, refusal_of};
ghost use Rattle.litefs_tool.specs.declared.refusal.Refusal.TheVariants as refusal;

use lf_base::{NoMemory, Pos};
use ltx_codec::LtxFault;

/// Why LTX files do not make a database. Of the files the first that has a fault is refused.
#[derive(Clone, Copy, Debug, PartialEq, Eq)]
pub enum Refusal {
    /// The bytes are no LTX file.
    Ltx(LtxFault),
    /// The file follows the position `want`, and the database is at `have`.
    NotNext { have: Pos, want: Pos },
    /// The file has another page size than the database, and leaves out a page.
    PageSize,
    /// After the file the database has the sum `got`, and the file says `want`.
    SumDiffers { want: u64, got: u64 },
    NoMemory,
}

impl From<LtxFault> for Refusal {
    ghost from_gives = { λ fault r. r ≡ refusal_of fault };

    fn from(fault: LtxFault) -> Refusal {
        match fault {
            LtxFault::NoMemory => Refusal::NoMemory,
            _ => Refusal::Ltx(fault),
        }
    }
}

impl From<NoMemory> for Refusal {
    ghost from_gives = { λ _ r. r ≡ refusal.NoMemory };

    fn from(_want: NoMemory) -> Refusal {
        Refusal::NoMemory
    }
}

impl Refusal {
    /// The name of the fault, without what it found.
    pub fn name(self) -> &'static str
        ensures { result.now ≡ refusal_name self }
    {
        match self {
            Refusal::Ltx(fault) => fault.name(),
            Refusal::NotNext { .. } => "NotNext",
            Refusal::PageSize => "PageSize",
            Refusal::SumDiffers { .. } => "SumDiffers",
            Refusal::NoMemory => "NoMemory",
        }
    }
}
