//! A second disk with the files of another.
ghost use Rattle.std.specs.Prelude.{◌≡◌, [], IfSome};

use crate::stores::crashed;
use lf_disk::{Disk, FileName, MemDisk};
use std::alloc::Global;

/// The bytes of a file.
fn bytes_of<D: Disk>(alloc: Global, disk: &mut D, name: FileName) -> Option<Vec<u8>> {
    let size = disk.size(name).ok()??;
    let mut bytes = vec![in alloc; 0u8; size as usize].ok()?;
    match disk.read(name, 0, bytes.as_mut_slice()) {
        Ok(_) => Some(bytes),
        Err(_) => None,
    }
}

/// Writes a file.
pub fn write_file<D: Disk>(disk: &mut D, name: FileName, bytes: &[u8]) -> Option<()> {
    if disk.write(name, 0, bytes).is_err() || disk.sync(name).is_err() {
        return None;
    }
    Some(())
}

/// Writes each file of a disk to another.
fn write_each<D: Disk>(alloc: Global, disk: &mut D, copy: &mut D) -> Option<()> {
    let names = disk.list().ok()?;
    for name in &names {
        let bytes = bytes_of(alloc, disk, *name)?;
        write_file(copy, *name, bytes.as_slice())?;
    }
    Some(())
}

/// A disk with the files of another, as it is found after a stop.
pub fn copied(alloc: Global, disk: &mut MemDisk) -> Option<MemDisk>
    ensures { IfSome result (λ copy. copy.calls ≡ []) }
{
    let mut copy = MemDisk::new(alloc, Vec::new(alloc), None).ok()?;
    if write_each(alloc, disk, &mut copy).is_some() {
        return crashed(copy, 0);
    }
    drop(copy);
    None
}
