//! Lists that are written down.
ghost use Rattle.std.specs.Prelude.{◌≡◌, ◌∷◌, [], IfOk};

use lf_base::NoMemory;
use std::alloc::Global;

/// Pieces of a text, and how many zeros follow each.
pub type Pieces = &'static [(&'static [u8], usize)];

/// A list of one item.
pub fn one<T: Drop>(alloc: Global, item: T) -> Result<Vec<T>, NoMemory>
    ensures { IfOk result (λ list. list.items ≡ item ∷ []) }
{
    let mut list = Vec::new(alloc);
    list.push(item)?;
    Ok(list)
}

fn append_zeros(bytes: &mut Vec<u8>, count: usize) -> Result<(), NoMemory> {
    for _ in 0..count {
        bytes.push(0)?;
    }
    Ok(())
}

/// The pieces and their zeros, one behind another.
pub fn padded(alloc: Global, pieces: Pieces) -> Result<Vec<u8>, NoMemory> {
    let mut bytes = Vec::new(alloc);
    for (piece, zeros) in pieces {
        bytes.extend_from_slice(piece)?;
        append_zeros(&mut bytes, *zeros)?;
    }
    Ok(bytes)
}
