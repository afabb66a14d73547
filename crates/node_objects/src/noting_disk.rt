//! A disk that notes which of its calls failed last, and counts the transactions that came into the log.
ghost use Rattle.std.specs.Prelude.{◌≡◌, ◌==◌, not};

use crate::failing::{DiskCall, FailedCall, Failing};
use lf_base::{Errno, Failed, Handles};
use lf_disk::{DirDisk, Disk, FileName, ListFault};
use node_figures::Tally;
use std::fs::File;
use std::rt::Files;
use std::sync::Wait;
use std::time::{Clock, Duration};

/// It does what the disk inside it does.
#[derive(Drop)]
pub struct NotingDisk<R, D> {
    rt: R,
    disk: D,
    failing: Failing,
    tally: Tally,
    /// When the file that is being written was begun, where it is known, and whether it has its name.
    began: Option<Duration>,
    is_published: bool,
}

impl<R, D> NotingDisk<R, D> {
    pub fn new(rt: R, disk: D, failing: Failing, tally: Tally) -> NotingDisk<R, D>
        ensures { result.disk ≡ disk }
    {
        NotingDisk {
            rt,
            disk,
            failing,
            tally,
            began: None,
            is_published: false,
        }
    }
}

impl<R: Files<File = File> + AllocGlobal + Copy> NotingDisk<R, DirDisk<R>> {
    /// Whether its count of faults is not 0.
    pub fn has_failed(&self) -> bool
        ensures { result ≡ not (self.now.disk.faults == 0) }
    {
        self.disk.has_failed()
    }
}

impl<R: Wait + Clock, D: Disk> NotingDisk<R, D> {
    /// Notes that this call failed, where it did.
    fn note(&self, failed: bool, call: DiskCall, file: Option<FileName>) {
        let error = self.disk.last_error();
        self.failing
            .note(&self.rt, failed, FailedCall { call, file, error });
    }

    /// So many bytes were written at this place of a file.
    fn count_write(&mut self, name: FileName, at: u64, len: usize)
        ensures { self.new.disk ≡ self.old.disk }
    {
        if name != FileName::Staged {
            return;
        }
        if at == 0 {
            self.began = self.rt.monotonic().ok();
            self.is_published = false;
        }
        self.tally.staged(&self.rt, at.saturating_add(len as u64));
    }

    /// A file has another name.
    fn count_rename(&mut self, from: FileName, to: FileName)
        ensures { self.new.disk ≡ self.old.disk }
    {
        self.tally.renamed(&self.rt, from, to);
        self.is_published = self.is_published || from == FileName::Staged;
    }

    /// The database was synced: behind a publication that ends a commit.
    fn count_sync(&mut self, name: FileName)
        ensures { self.new.disk ≡ self.old.disk }
    {
        if name != FileName::Database || !self.is_published {
            return;
        }
        self.is_published = false;
        if let (Some(began), Ok(now)) = (self.began, self.rt.monotonic()) {
            self.tally.commit(micros_between(began, now));
        }
    }
}

/// How many microseconds lie between two moments.
fn micros_between(began: Duration, now: Duration) -> u64 {
    let (began, now) = (began.as_micros(), now.as_micros());
    u64::try_from(now.saturating_sub(began)).unwrap_or(u64::MAX)
}

impl<R: Wait + Clock, D: Disk> Disk for NotingDisk<R, D> {
    ghost honest = { λ d. D.honest d.disk };

    ghost history = { λ d. D.history d.disk };

    ghost faults = { λ d. D.faults d.disk };

    ghost error = { λ d. D.error d.disk };

    ghost as_it_read = { λ d t honest at. D.as_it_read d.disk t honest at };

    fn size(&mut self, name: FileName) -> Result<Option<u64>, Failed> {
        let outcome = self.disk.size(name);
        self.note(outcome.is_err(), DiskCall::Size, Some(name));
        if let Ok(Some(size)) = outcome {
            self.tally.sized(&self.rt, name, size);
        }
        outcome
    }

    fn read(&mut self, name: FileName, at: u64, out: &mut [u8]) -> Result<usize, Failed> {
        let outcome = self.disk.read(name, at, out);
        self.note(outcome.is_err(), DiskCall::Read, Some(name));
        outcome
    }

    fn write(&mut self, name: FileName, at: u64, bytes: &[u8]) -> Result<(), Failed> {
        let outcome = self.disk.write(name, at, bytes);
        self.note(outcome.is_err(), DiskCall::Write, Some(name));
        self.count_write(name, at, bytes.len());
        outcome
    }

    fn cut(&mut self, name: FileName, len: u64) -> Result<(), Failed> {
        let outcome = self.disk.cut(name, len);
        self.note(outcome.is_err(), DiskCall::Cut, Some(name));
        if name == FileName::Staged {
            self.tally.sized(&self.rt, name, len);
        }
        outcome
    }

    fn sync(&mut self, name: FileName) -> Result<(), Failed> {
        let outcome = self.disk.sync(name);
        self.note(outcome.is_err(), DiskCall::Sync, Some(name));
        self.count_sync(name);
        outcome
    }

    fn rename(&mut self, from: FileName, to: FileName) -> Result<(), Failed> {
        let outcome = self.disk.rename(from, to);
        self.note(outcome.is_err(), DiskCall::Rename, Some(from));
        self.count_rename(from, to);
        outcome
    }

    fn remove(&mut self, name: FileName) -> Result<(), Failed> {
        let outcome = self.disk.remove(name);
        self.note(outcome.is_err(), DiskCall::Remove, Some(name));
        self.tally.removed(&self.rt, name);
        outcome
    }

    fn list(&mut self) -> Result<Vec<FileName>, ListFault> {
        let outcome = self.disk.list();
        self.note(
            matches!(outcome, Err(ListFault::Failed)),
            DiskCall::List,
            None,
        );
        outcome
    }

    fn last_error(&self) -> Option<Errno> {
        self.disk.last_error()
    }

    fn moment(&self) -> u64 {
        self.disk.moment()
    }
}
