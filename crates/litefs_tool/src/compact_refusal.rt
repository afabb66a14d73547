ghost use Rattle.std.specs.Prelude.{◌≡◌};
ghost use Rattle.litefs_tool.specs.CompactRefusal.{of_ltx, of_list, compact_refusal_name};
ghost use Rattle.litefs_tool.specs.declared.compact_refusal.CompactRefusal.TheVariants as refusal;

use lf_base::NoMemory;
use ltx_codec::LtxFault;
use ltx_compact::CompactFault;

/// Why LTX files do not become one. First each file's encoding is looked at, then whether they join,
/// and last the sum of a snapshot.
#[derive(Clone, Copy, Debug, PartialEq, Eq)]
pub enum CompactRefusal {
    /// The bytes are no LTX files.
    Ltx(LtxFault),
    /// The files do not join.
    List(CompactFault),
    /// The one file is a snapshot whose pages have the sum `got`, and the last file says `want`.
    SumDiffers { want: u64, got: u64 },
    NoMemory,
}

impl From<LtxFault> for CompactRefusal {
    ghost from_gives = { λ fault r. r ≡ of_ltx fault };

    fn from(fault: LtxFault) -> CompactRefusal {
        match fault {
            LtxFault::NoMemory => CompactRefusal::NoMemory,
            _ => CompactRefusal::Ltx(fault),
        }
    }
}

impl From<CompactFault> for CompactRefusal {
    ghost from_gives = { λ fault r. r ≡ of_list fault };

    fn from(fault: CompactFault) -> CompactRefusal {
        match fault {
            CompactFault::NoMemory => CompactRefusal::NoMemory,
            _ => CompactRefusal::List(fault),
        }
    }
}

impl From<NoMemory> for CompactRefusal {
    ghost from_gives = { λ _ r. r ≡ refusal.NoMemory };

    fn from(_want: NoMemory) -> CompactRefusal {
        CompactRefusal::NoMemory
    }
}

impl CompactRefusal {
    /// The name of the fault, without what it found.
    pub fn name(self) -> &'static str
        ensures { result.now ≡ compact_refusal_name self }
    {
        match self {
            CompactRefusal::Ltx(fault) => fault.name(),
            CompactRefusal::List(fault) => name_of_list(fault),
            CompactRefusal::SumDiffers { .. } => "SumDiffers",
            CompactRefusal::NoMemory => "NoMemory",
        }
    }
}

fn name_of_list(fault: CompactFault) -> &'static str
    ensures { result.now ≡ compact_refusal_name (refusal.List fault) }
{
    match fault {
        CompactFault::Empty => "Empty",
        CompactFault::Gap { .. } => "Gap",
        CompactFault::SumGap { .. } => "SumGap",
        CompactFault::PageSize { .. } => "PageSize",
        CompactFault::NoMemory => "NoMemory",
    }
}
