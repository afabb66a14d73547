//! Links in memory, and a dialer that reaches nobody.
ghost use Rattle.std.specs.Prelude.{◌≡◌, ◌∷◌, [], IfOk, max};
ghost use Rattle.lf_base.specs.Wire.{new_wire};

use crate::lists::one;
use lf_base::{MemDialer, MemLink, NoMemory};
use std::alloc::Global;

/// A number that no call has.
pub const NEVER: u64 = u64::MAX;

/// A link that gives these bytes, and takes `room`.
pub fn link_of(alloc: Global, input: &[u8], room: usize) -> Result<MemLink, NoMemory>
    ensures { IfOk result (λ link. link ≡ new_wire input.now room []) }
{
    let input = Vec::from_slice(alloc, input)?;
    MemLink::new(alloc, input, room, Vec::new(alloc))
}

/// The same, of which the call of this number fails.
pub fn link_failing(
    alloc: Global,
    input: &[u8],
    room: usize,
    failing: u64,
) -> Result<MemLink, NoMemory>
    ensures { IfOk result (λ link. link ≡ new_wire input.now room (failing ∷ [])) }
{
    let input = Vec::from_slice(alloc, input)?;
    MemLink::new(alloc, input, room, one(alloc, failing)?)
}

/// The same, where each read gives at most `size` bytes, and at least one.
pub fn link_in_pieces(
    alloc: Global,
    input: &[u8],
    room: usize,
    failing: u64,
    size: usize,
) -> Result<MemLink, NoMemory>
    ensures { IfOk result (λ link. link ≡ record (new_wire input.now room (failing ∷ [])) { size = max size 1 }) }
{
    let mut link = link_failing(alloc, input, room, failing)?;
    link.cut_into(size.max(1));
    Ok(link)
}

/// A dialer that has no links.
pub fn nobody(alloc: Global) -> Result<MemDialer, NoMemory>
    ensures { IfOk result (λ dialer. dialer.links ≡ []) }
{
    MemDialer::new(alloc, Vec::new(alloc), 0, Vec::new(alloc))
}
