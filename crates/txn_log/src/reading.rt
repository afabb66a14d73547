//! Pages of the image and files of the log are read.
ghost use Rattle.std.specs.Prelude.{◌≡◌, ◌≤◌, IsTrue, IfOk, OnOk, length, replicate, ◌<◌, ◌+◌, Some, None, min, if◌then◌else◌};
ghost use Rattle.txn_log.specs.Giving.{ReadsFile, IsEncodingAt, Gives, ReadsPage};
ghost use Rattle.txn_log.specs.LastFile.{seal_of};
ghost use Rattle.lf_base.specs.Faults.{CountsFaults};
ghost use Rattle.lf_base.specs.FileBytes.{read_into};
ghost use Rattle.lf_disk.specs.Folder.{bytes_of};
ghost use Rattle.lf_disk.specs.History.{now, Rests};
ghost use Rattle.txn_log.specs.Store.{state_of, failed_of};
ghost use Rattle.lf_sqlite_pages.specs.Image.{page_at};

use crate::fault::StoreFault;
use crate::store::Store;
use lf_base::{Failed, NoMemory, be64_at};
use lf_disk::{Disk, FileName};
use lf_sqlite_pages::{PageStore, lock_page};
use std::alloc::Global;

/// Makes every byte 0.
pub fn zero(out: &mut [u8])
    ensures { out.new ≡ replicate (length out.old) 0 }
{
    out.fill(0);
}

/// Fills `out` with the bytes of a file from an offset on, and with zeros where it has none.
pub fn read_at<D: Disk>(disk: &mut D, name: FileName, at: u64, out: &mut [u8]) -> Result<(), Failed>
    ensures bytes { IsTrue (D.honest disk.old) → OnOk result
        (out.new ≡ read_into at (bytes_of (now (D.history disk.old) name)) (replicate (length out.old) 0)) }
    ensures length { length out.new ≡ length out.old }
    ensures rests { Rests (D.history disk.old) (D.history disk.new) }
    ensures honest { D.honest disk.new ≡ D.honest disk.old }
    ensures cause { CountsFaults (D.faults disk.old) (D.faults disk.new) result }
{
    zero(out);
    disk.read(name, at, out)?;
    Ok(())
}

/// So many zeros.
fn zeros_of(alloc: Global, count: usize) -> Result<Vec<u8>, NoMemory>
    ensures { IfOk result (λ zeros. length zeros.items ≡ count) }
{
    Ok(vec![in alloc; 0; count]?)
}

/// Makes `out` the bytes of a file, of which an absent one has none.
pub fn read_file<D: Disk>(disk: &mut D, name: FileName, out: &mut Vec<u8>) -> Result<(), StoreFault>
    ensures bytes { IsTrue (D.honest disk.old) → OnOk result (out.new.items ≡ bytes_of (now (D.history disk.old) name)) }
    ensures cause { ReadsFile (D.faults disk.old) result (D.faults disk.new) }
    ensures rests { Rests (D.history disk.old) (D.history disk.new) }
    ensures honest { D.honest disk.new ≡ D.honest disk.old }
{
    let size = match disk.size(name) {
        Ok(size) => size.unwrap_or(0),
        Err(_) => return Err(StoreFault::Disk),
    };
    match zeros_of(*out.allocator(), size as usize) {
        Ok(zeros) => *out = zeros,
        Err(_) => return Err(StoreFault::NoMemory),
    }
    match read_at(disk, name, 0, out.as_mut_slice()) {
        Ok(()) => Ok(()),
        Err(_) => Err(StoreFault::Disk),
    }
}

/// The number of bytes of a file, of which an absent one has none.
pub fn size_of<D: Disk>(disk: &mut D, name: FileName) -> Result<u64, Failed>
    ensures size { IsTrue (D.honest disk.old) → IfOk result (λ size. size ≡ length (bytes_of (now (D.history disk.old) name))) }
    ensures rests { Rests (D.history disk.old) (D.history disk.new) }
    ensures honest { D.honest disk.new ≡ D.honest disk.old }
    ensures cause { CountsFaults (D.faults disk.old) (D.faults disk.new) result }
{
    match disk.size(name) {
        Ok(Some(size)) => Ok(size),
        Ok(None) => Ok(0),
        Err(failed) => Err(failed),
    }
}

/// The last eight bytes of a file as a number.
pub fn read_seal<D: Disk>(disk: &mut D, name: FileName) -> Result<u64, Failed>
    ensures seal { IsTrue (D.honest disk.old) → 8 ≤ length (bytes_of (now (D.history disk.old) name))
        → IfOk result (λ sum. sum ≡ seal_of (bytes_of (now (D.history disk.old) name))) }
    ensures rests { Rests (D.history disk.old) (D.history disk.new) }
    ensures honest { D.honest disk.new ≡ D.honest disk.old }
    ensures cause { CountsFaults (D.faults disk.old) (D.faults disk.new) result }
{
    let size = size_of(disk, name)?;
    let mut bytes = [0u8; 8];
    read_at(disk, name, size.saturating_sub(8), &mut bytes)?;
    Ok(be64_at(&bytes, 0))
}

impl<D: Disk> Store<D> {
    /// Makes `out` the bytes of the file at a place of the log. After a fault nothing is said of what
    /// `out` holds. The store stays as it is.
    pub fn file(&mut self, at: usize, out: &mut Vec<u8>) -> Result<(), StoreFault>
        requires { at < length self.old.entries.items }
        ensures encoding { IsTrue (D.honest self.old.disk) → OnOk result (IsEncodingAt (state_of (D.history self.old.disk)
            self.old.page_size self.old.commit self.old.entries.items self.old.dropped self.old.broken self.old.whole).log at out.new.items) }
        ensures cause { Gives self.old.broken (D.faults self.old.disk) result (D.faults self.new.disk) }
        ensures store { IsTrue (D.honest self.old.disk) → (state_of (D.history self.new.disk)
            self.new.page_size self.new.commit self.new.entries.items self.new.dropped self.new.broken self.new.whole
            ≡ state_of (D.history self.old.disk) self.old.page_size self.old.commit self.old.entries.items self.old.dropped self.old.broken self.old.whole)
            × (failed_of (D.history self.new.disk) self.new.broken self.new.attempt self.new.tried
            ≡ failed_of (D.history self.old.disk) self.old.broken self.old.attempt self.old.tried) }
        ensures fields { (self.new.entries.items ≡ self.old.entries.items) × (self.new.sums ≡ self.old.sums)
            × (self.new.page_size ≡ self.old.page_size) × (self.new.commit ≡ self.old.commit) × (self.new.wal ≡ self.old.wal)
            × (self.new.dropped ≡ self.old.dropped) × (self.new.broken ≡ self.old.broken) × (self.new.refused ≡ self.old.refused)
            × (self.new.whole ≡ self.old.whole) × (self.new.attempt ≡ self.old.attempt) × (self.new.tried ≡ self.old.tried) }
        ensures rests { IsTrue (D.honest self.old.disk) → Rests (D.history self.old.disk) (D.history self.new.disk) }
        ensures honest { D.honest self.new.disk ≡ D.honest self.old.disk }
    {
        if self.broken {
            return Err(StoreFault::Broken);
        }
        let entry = self.entries[at];
        read_file(
            &mut self.disk,
            FileName::Ltx {
                min: entry.min,
                max: entry.max,
            },
            out,
        )?;
        Ok(())
    }
}

impl<D: Disk> Store<D> {
    /// Puts the bytes of page `n` into `out`, which is one page long. Pages are counted from 1. The
    /// store stays as it is, but for the count of reads that were refused while it is broken.
    pub fn read_page(&mut self, n: u32, out: &mut [u8]) -> Result<(), Failed>
        requires first { 1 ≤ n }
        requires last { n ≤ self.old.commit }
        requires whole { length out.old ≡ self.old.page_size }
        ensures bytes { IsTrue (D.honest self.old.disk) → OnOk result (page_at (state_of (D.history self.old.disk)
            self.old.page_size self.old.commit self.old.entries.items self.old.dropped self.old.broken self.old.whole).image n ≡ Some out.new) }
        ensures cause { ReadsPage self.old.broken (D.faults self.old.disk) self.old.refused result (D.faults self.new.disk) self.new.refused }
        ensures store { IsTrue (D.honest self.old.disk) → (state_of (D.history self.new.disk)
            self.new.page_size self.new.commit self.new.entries.items self.new.dropped self.new.broken self.new.whole
            ≡ state_of (D.history self.old.disk) self.old.page_size self.old.commit self.old.entries.items self.old.dropped self.old.broken self.old.whole)
            × (failed_of (D.history self.new.disk) self.new.broken self.new.attempt self.new.tried
            ≡ failed_of (D.history self.old.disk) self.old.broken self.old.attempt self.old.tried) }
        ensures fields { (self.new.entries.items ≡ self.old.entries.items) × (self.new.sums ≡ self.old.sums)
            × (self.new.page_size ≡ self.old.page_size) × (self.new.commit ≡ self.old.commit) × (self.new.wal ≡ self.old.wal)
            × (self.new.dropped ≡ self.old.dropped) × (self.new.broken ≡ self.old.broken)
            × (self.new.whole ≡ self.old.whole) × (self.new.attempt ≡ self.old.attempt) × (self.new.tried ≡ self.old.tried) }
        ensures rests { Rests (D.history self.old.disk) (D.history self.new.disk) }
        ensures honest { D.honest self.new.disk ≡ D.honest self.old.disk }
    {
        if self.broken {
            self.refused = self.refused.saturating_add(1);
            return Err(Failed);
        }
        if n == lock_page(self.page_size) {
            zero(out);
            return Ok(());
        }
        let at = u64::from(n - 1) * u64::from(self.page_size);
        read_at(&mut self.disk, FileName::Database, at, out)?;
        Ok(())
    }
}

/// The image is told where the disk is honest. A fault is one of the disk, or a read that was refused
/// while the store is broken; at the last number of a u64 their count stands.
impl<D: Disk> PageStore for Store<D> {
    ghost image = { λ s. if D.honest s.disk
        then Some (state_of (D.history s.disk) s.page_size s.commit s.entries.items s.dropped s.broken s.whole).image
        else None };

    ghost page_size = { λ s. s.page_size };

    ghost commit = { λ s. s.commit };

    ghost wal_mode = { λ s. s.wal };

    ghost is_broken = { λ s. s.broken };

    ghost faults = { λ s. min (D.faults s.disk + s.refused) 18446744073709551615 };

    fn page_size(&self) -> u32 {
        self.page_size
    }

    fn commit(&self) -> u32 {
        self.commit
    }

    fn wal_mode(&self) -> bool {
        self.wal
    }

    fn is_broken(&self) -> bool {
        self.broken
    }

    fn page(&mut self, n: u32, out: &mut [u8]) -> Result<(), Failed> {
        self.read_page(n, out)
    }
}
