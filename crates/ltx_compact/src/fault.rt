ghost use Rattle.std.specs.Prelude.{◌≡◌};
ghost use Rattle.ltx_compact.specs.declared.fault.CompactFault.TheVariants as variant;

use lf_base::NoMemory;
use thiserror::Error;

/// Why files do not become one. Places count from 1, and the first file that does not join the one
/// before it is answered.
#[derive(Clone, Copy, Debug, PartialEq, Eq, Error)]
pub enum CompactFault {
    /// There is no file.
    #[error("there is no file")]
    Empty,
    /// The file's first transaction does not follow the last of the file before.
    #[error("file {at} does not follow the one before it")]
    Gap { at: usize },
    /// The file before leaves the sum `want`, and this one begins with the sum `got`.
    #[error("file {at} begins with the sum {got:016x}, and the one before it ends with {want:016x}")]
    SumGap { at: usize, want: u64, got: u64 },
    /// The file has another page size than the one before.
    #[error("file {at} has another page size than the one before it")]
    PageSize { at: usize },
    #[error("out of memory")]
    NoMemory,
}

impl From<NoMemory> for CompactFault {
    ghost from_gives = { λ _ fault. fault ≡ variant.NoMemory };

    fn from(_memory: NoMemory) -> CompactFault {
        CompactFault::NoMemory
    }
}
