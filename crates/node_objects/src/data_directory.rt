//! The data directory of a database in the working directory.
ghost use Rattle.std.specs.Prelude.{◌≡◌, IfOk};

use crate::obstacle::Obstacle;
use crate::system::System;
use lf_base::Name;
use lf_disk::DirDisk;
use std::fs::{self, File};

/// Opens `dbs/NAME`, which is made where it is missing, and locks it while the file that comes with
/// it is open. Where another process has locked it, nothing is changed.
pub fn open_directory<R: System>(rt: R, name: &Name) -> Result<(DirDisk<R>, File), Option<Obstacle>>
    ensures { IfOk result (λ made. (made.0.moment ≡ 0) × (made.0.faults ≡ 0)) }
{
    let Ok(name) = str::from_utf8(name.bytes()) else {
        return Err(None);
    };
    match format!(in rt.alloc(); "dbs/{name}") {
        Ok(path) => open_locked(rt, path.as_str()),
        Err(_) => Err(None),
    }
}

/// Opens a folder, and locks it.
fn open_locked<R: System>(rt: R, path: &str) -> Result<(DirDisk<R>, File), Option<Obstacle>>
    ensures { IfOk result (λ made. (made.0.moment ≡ 0) × (made.0.faults ≡ 0)) }
{
    let Ok(disk) = DirDisk::open(rt, path) else {
        return Err(why_closed(rt, path));
    };
    let lock = lock(rt, path)?;
    Ok((disk, lock))
}

/// What the system says of a folder that could not be opened, where it says it again.
fn why_closed<R: System>(rt: R, path: &str) -> Option<Obstacle> {
    match fs::create_dir_all(&rt, path) {
        Ok(()) => None,
        Err(error) => Obstacle::of(&error),
    }
}

/// The lock of a folder, which goes with its process.
fn lock<R: System>(rt: R, path: &str) -> Result<File, Option<Obstacle>> {
    match fs::open(&rt, path) {
        Ok(folder) if folder.try_lock().is_ok() => Ok(folder),
        Ok(_) => Err(Some(Obstacle::InUse)),
        Err(error) => Err(Obstacle::of(&error)),
    }
}
