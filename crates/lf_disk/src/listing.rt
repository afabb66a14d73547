//! Which transaction files stand on a disk.
ghost use Rattle.std.specs.Prelude.{◌≡◌, ◌↔◌, ◌<◌, ◌+◌, ◌*◌, ◌^◌, ℕ, IsTrue, IfOk};
ghost use Rattle.std.specs.List.{IsDistinct};
ghost use Rattle.lf_disk.specs.Folder.{same_name};
ghost use Rattle.lf_disk.specs.History.{now, Rests};
ghost use Rattle.lf_disk.specs.ListFault.{CountsListFaults};
ghost use Rattle.lf_disk.specs.Listing.{Has, Names, place_of, AreInOrder, AreNarrow, AreOnce, AreListed};

use crate::disk::Disk;
use crate::list_fault::ListFault;
use crate::name::FileName;
use lf_base::NoMemory;
use std::alloc::Global;

/// The numbers in the name of a transaction file.
#[derive(Clone, Copy, Debug, PartialEq, Eq)]
pub struct Numbers {
    pub min: u64,
    pub max: u64,
}

impl Numbers {
    fn new(min: u64, max: u64) -> Numbers
        ensures value { result ≡ record { min = min; max = max } }
        ensures narrow { max < 2 ^ 64 }
    {
        Numbers { min, max }
    }

    /// Where a file stands in the order of minimum and then maximum.
    fn place(&self) -> u128
        ensures { result ≡ place_of self.now }
    {
        u128::from(self.min) * (1 << 64) + u128::from(self.max)
    }
}

/// Those of the transaction files among these names.
fn numbers_among(alloc: Global, names: &[FileName]) -> Result<Vec<Numbers>, NoMemory>
    ensures has { IfOk result (λ found. (a b : ℕ) → Has found.items a b ↔ Names names.now a b) }
    ensures narrow { IfOk result (λ found. AreNarrow found.items) }
    ensures once { IfOk result (λ found. IsDistinct same_name names.now → AreOnce found.items) }
{
    let mut found = Vec::new(alloc);
    for name in names {
        if let FileName::Ltx { min, max } = *name {
            found.push(Numbers::new(min, max))?;
        }
    }
    Ok(found)
}

/// The same, by minimum and then maximum.
fn sorted_among(alloc: Global, names: &[FileName]) -> Result<Vec<Numbers>, NoMemory>
    ensures has { IfOk result (λ found. (a b : ℕ) → Has found.items a b ↔ Names names.now a b) }
    ensures order { IfOk result (λ found. AreInOrder found.items) }
    ensures narrow { IfOk result (λ found. AreNarrow found.items) }
    ensures once { IfOk result (λ found. IsDistinct same_name names.now → AreOnce found.items) }
{
    let mut found = numbers_among(alloc, names)?;
    found.sort_unstable_by_key(|numbers| numbers.place());
    Ok(found)
}

/// The numbers of the transaction files on a disk, by minimum and then maximum, each once.
pub fn list_numbers<D: Disk>(alloc: Global, disk: &mut D) -> Result<Vec<Numbers>, ListFault>
    ensures listed { IsTrue (D.honest disk.old) → IfOk result (λ found. AreListed found.items (now (D.history disk.old))) }
    ensures rests { Rests (D.history disk.old) (D.history disk.new) }
    ensures honest { D.honest disk.new ≡ D.honest disk.old }
    ensures cause { CountsListFaults (D.faults disk.old) (D.faults disk.new) result }
{
    let names = disk.list()?;
    match sorted_among(alloc, names.as_slice()) {
        Ok(found) => Ok(found),
        Err(_) => Err(ListFault::NoMemory),
    }
}
