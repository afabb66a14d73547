//! A folder of the system as a disk. What its files hold is known to no contract: it tells its
//! moment and its count of faults alone.
ghost use Rattle.std.specs.Prelude.{◌≡◌, ◌==◌, ◌+◌, ◌<◌, ◌^◌, not, false, IfOk, OnOk};
ghost use Rattle.std.proofs.lemmas.Bool.{false≢true};
ghost use Rattle.lf_base.specs.Faults.{Rose, CountsFaults};
ghost use Rattle.lf_disk.specs.History.{untold};

mod folder;
mod kept;
mod places;
pub mod whole;

use crate::disk::Disk;
use crate::list_fault::ListFault;
use crate::name::FileName;
use folder::Folder;
use lf_base::{Errno, Failed};
use std::fs::File;
use std::io::{self, ErrorKind};
use std::rt::Files;

/// At this moment every changing call fails.
const LAST_MOMENT: u64 = 1 << 62;

/// The files `database`, `snapshot.ltx`, `dropped`, `ltx/.staged` and `ltx/MIN-MAX.ltx` of a folder, where
/// MIN and MAX have 16 digits in base 16. `database` and `staged` are opened at their first use and stay
/// open until their name is given or taken away; each other file is opened by each call. After a name was
/// made, given or taken away, the folder that has it is synced, but for the making of `staged`.
#[derive(Drop)]
pub struct DirDisk<R: Files<File = File> + AllocGlobal + Copy> {
    folder: Folder<R>,
    moment: u64,
    faults: u64,
    error: Option<Errno>,
}

impl<R: Files<File = File> + AllocGlobal + Copy> DirDisk<R> {
    /// Opens a folder, which is made where it is missing. What has the name of a folder that is made
    /// is synced.
    pub fn open(rt: R, path: &str) -> Result<DirDisk<R>, Failed>
        ensures { IfOk result (λ disk. (disk.moment ≡ 0) × (disk.faults ≡ 0)) }
    {
        match Folder::open(rt, path) {
            Ok(folder) => Ok(DirDisk {
                folder,
                moment: 0,
                faults: 0,
                error: None,
            }),
            Err(_) => Err(Failed),
        }
    }

    /// Whether its count of faults is not 0.
    pub fn has_failed(&self) -> bool
        ensures { result ≡ not (self.now.faults == 0) }
    {
        self.faults != 0
    }

    /// Counts a fault, and notes the system's error.
    fn fail(&mut self, error: Option<Errno>) -> Failed
        ensures rose { Rose self.old.faults self.new.faults }
        ensures moment { self.new.moment ≡ self.old.moment }
    {
        self.faults = self.faults.saturating_add(1);
        self.error = error;
        Failed
    }

    /// What a call answers that changes nothing.
    fn answer<T: Drop>(&mut self, outcome: io::Result<T>) -> Result<T, Failed>
        ensures value { IfOk result (λ answer. outcome ≡ Ok answer) }
        ensures moment { self.new.moment ≡ self.old.moment }
        ensures cause { CountsFaults self.old.faults self.new.faults result }
        ensures error { OnOk result (self.new.error ≡ self.old.error) }
    {
        match outcome {
            Ok(answer) => Ok(answer),
            Err(error) => Err(self.fail(number_of(&error))),
        }
    }

    /// What a changing call answers, which is counted.
    fn settle(&mut self, outcome: io::Result<()>) -> Result<(), Failed>
        requires { self.old.moment < 2 ^ 62 }
        ensures moment { self.new.moment ≡ self.old.moment + 1 }
        ensures cause { CountsFaults self.old.faults self.new.faults result }
        ensures error { OnOk result (self.new.error ≡ self.old.error) }
    {
        self.moment += 1;
        self.answer(outcome)
    }
}

impl<R: Files<File = File> + AllocGlobal + Copy> Disk for DirDisk<R> {
    ghost honest = { λ _. false };

    ghost history = { λ d. untold d.moment };

    ghost faults = { λ d. d.faults };

    ghost error = { λ d. d.error };

    ghost as_it_read = { λ _ _ honest _. absurd (false≢true honest) };

    fn size(&mut self, name: FileName) -> Result<Option<u64>, Failed> {
        let outcome = self.folder.size(name);
        self.answer(outcome)
    }

    fn read(&mut self, name: FileName, at: u64, out: &mut [u8]) -> Result<usize, Failed> {
        let outcome = self.folder.read(name, at, out);
        self.answer(outcome)
    }

    fn write(&mut self, name: FileName, at: u64, bytes: &[u8]) -> Result<(), Failed> {
        if self.moment >= LAST_MOMENT {
            return Err(self.fail(None));
        }
        let outcome = self.folder.write(name, at, bytes);
        self.settle(outcome)
    }

    fn cut(&mut self, name: FileName, len: u64) -> Result<(), Failed> {
        if self.moment >= LAST_MOMENT {
            return Err(self.fail(None));
        }
        let outcome = self.folder.cut(name, len);
        self.settle(outcome)
    }

    fn sync(&mut self, name: FileName) -> Result<(), Failed> {
        if self.moment >= LAST_MOMENT {
            return Err(self.fail(None));
        }
        let outcome = self.folder.sync(name);
        self.settle(outcome)
    }

    fn rename(&mut self, from: FileName, to: FileName) -> Result<(), Failed> {
        if self.moment >= LAST_MOMENT {
            return Err(self.fail(None));
        }
        let outcome = self.folder.rename(from, to);
        self.settle(outcome)
    }

    fn remove(&mut self, name: FileName) -> Result<(), Failed> {
        if self.moment >= LAST_MOMENT {
            return Err(self.fail(None));
        }
        let outcome = self.folder.remove(name);
        self.settle(outcome)
    }

    fn list(&mut self) -> Result<Vec<FileName>, ListFault> {
        match self.folder.list() {
            Ok(names) => Ok(names),
            Err(error) if error.kind() == ErrorKind::OutOfMemory => Err(ListFault::NoMemory),
            Err(error) => {
                // It is counted here; the list names it in its own words.
                self.fail(number_of(&error));
                Err(ListFault::Failed)
            }
        }
    }

    fn last_error(&self) -> Option<Errno> {
        self.error
    }

    fn moment(&self) -> u64 {
        self.moment
    }
}

/// The number of an error of the system.
fn number_of(error: &io::Error) -> Option<Errno> {
    match u32::try_from(error.raw_os_error()?) {
        Ok(number) => Some(Errno(number)),
        Err(_) => None,
    }
}
