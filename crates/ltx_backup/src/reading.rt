//! A transaction file is read, a piece at a time.
ghost use Rattle.std.specs.Prelude.{◌≡◌, ◌<◌, ◌≤◌, ◌+◌, ◌++◌, ℕ, List, [], IsTrue, IfOk, IfErr, OnOk, length, take, drop};
ghost use Rattle.lf_disk.specs.declared.name.FileName.TheVariants as name;
ghost use Rattle.lf_disk.specs.Folder.{bytes_of};
ghost use Rattle.lf_disk.specs.History.{now, Rests};
ghost use Rattle.ltx_codec.specs.Fields.{AreBytes};
ghost use Rattle.ltx_codec.specs.Format.{IsFile, IsLtx};
ghost use Rattle.ltx_codec.specs.Places.{IsRefused};
ghost use Rattle.ltx_backup.specs.Causes.{HasCause, IsBlameless};
ghost use Rattle.ltx_backup.specs.Coming.{HasCome, HasComeFrom};
ghost use Rattle.ltx_backup.specs.Judging.{Blames, IsUnread, IsNoFile, IsOther};
ghost use Rattle.ltx_backup.specs.Levels.{Stands};

use crate::coming::Coming;
use crate::entry::Entry;
use crate::fault::BackupFault;
use lf_disk::{Disk, FileName};
use ltx_codec::{Ltx, LtxFault};
use std::alloc::Global;

/// The most bytes that are read at a time.
const PIECE: u64 = 65_536;

/// A buffer of this length.
fn buffer(alloc: Global, len: u64) -> Result<Vec<u8>, BackupFault>
    ensures length { IfOk result (λ bytes. length bytes.items ≡ len) }
    ensures full { IfErr result (λ why. why ≡ BackupFault.NoMemory) }
{
    match vec![in alloc; 0; len as usize] {
        Ok(bytes) => Ok(bytes),
        Err(_) => Err(BackupFault::NoMemory),
    }
}

/// The number of bytes of a file, of which an absent one has none.
fn size_of<D: Disk>(disk: &mut D, name: FileName) -> Result<u64, BackupFault>
    ensures size { IsTrue (D.honest disk.old) → IfOk result (λ size. size ≡ length (bytes_of (now (D.history disk.old) name))) }
    ensures blameless { IfErr result IsBlameless }
    ensures rests { Rests (D.history disk.old) (D.history disk.new) }
    ensures honest { D.honest disk.new ≡ D.honest disk.old }
    ensures cause { HasCause (D.faults disk.old) (D.faults disk.new) result }
{
    match disk.size(name) {
        Ok(Some(size)) => Ok(size),
        Ok(None) => Ok(0),
        Err(_) => Err(BackupFault::Disk),
    }
}

/// Takes so many bytes of a file from an offset on, which are read into a buffer.
fn take_piece<D: Disk>(
    disk: &mut D,
    name: FileName,
    at: u64,
    out: &mut [u8],
    coming: Coming,
) -> Result<Coming, BackupFault>
    requires { 0 < length out.old }
    ensures read { IsTrue (D.honest disk.old) → at + length out.old ≤ length (bytes_of (now (D.history disk.old) name))
        → OnOk result (out.new ≡ take (length out.old) (drop at (bytes_of (now (D.history disk.old) name)))) }
    ensures come { IfOk result (λ next. (bytes : List ℕ) → HasCome coming bytes → HasCome next (bytes ++ out.new)) }
    ensures length { length out.new ≡ length out.old }
    ensures blameless { IfErr result IsBlameless }
    ensures rests { Rests (D.history disk.old) (D.history disk.new) }
    ensures honest { D.honest disk.new ≡ D.honest disk.old }
    ensures cause { HasCause (D.faults disk.old) (D.faults disk.new) result }
{
    match disk.read(name, at, out) {
        Ok(_) => Ok(coming.take(out)),
        Err(_) => Err(BackupFault::Disk),
    }
}

/// Takes all bytes of a file of this length, a piece at a time.
fn take_pieces<D: Disk>(
    disk: &mut D,
    name: FileName,
    size: u64,
    piece: &mut [u8],
    coming: Coming,
) -> Result<Coming, BackupFault>
    requires some { 0 < length piece.old }
    requires none { HasCome coming [] }
    ensures come { IfOk result (HasComeFrom (IsTrue (D.honest disk.old) × (size ≡ length (bytes_of (now (D.history disk.old) name)))) (bytes_of (now (D.history disk.old) name))) }
    ensures blameless { IfErr result IsBlameless }
    ensures rests { Rests (D.history disk.old) (D.history disk.new) }
    ensures honest { D.honest disk.new ≡ D.honest disk.old }
    ensures cause { HasCause (D.faults disk.old) (D.faults disk.new) result }
{
    let mut coming = coming;
    let mut at = 0;
    while at < size {
        let len = (size - at).min(piece.len() as u64);
        let (front, _) = piece.split_at_mut(len as usize);
        coming = match take_piece(disk, name, at, front, coming) {
            Ok(next) => next,
            Err(why) => return Err(why),
        };
        at += len;
    }
    Ok(coming)
}

/// The bytes of a file, of which an absent one has none.
fn take_file<D: Disk>(alloc: Global, disk: &mut D, name: FileName) -> Result<Coming, BackupFault>
    ensures come { IfOk result (HasComeFrom (IsTrue (D.honest disk.old)) (bytes_of (now (D.history disk.old) name))) }
    ensures blameless { IfErr result IsBlameless }
    ensures rests { Rests (D.history disk.old) (D.history disk.new) }
    ensures honest { D.honest disk.new ≡ D.honest disk.old }
    ensures cause { HasCause (D.faults disk.old) (D.faults disk.new) result }
{
    let size = match size_of(disk, name) {
        Ok(size) => size,
        Err(why) => return Err(why),
    };
    let mut piece = match buffer(alloc, size.min(PIECE).max(1)) {
        Ok(piece) => piece,
        Err(_) => return Err(BackupFault::NoMemory),
    };
    let coming = match Coming::new(alloc) {
        Ok(coming) => coming,
        Err(_) => return Err(BackupFault::NoMemory),
    };
    match take_pieces(disk, name, size, piece.as_mut_slice(), coming) {
        Ok(coming) => Ok(coming),
        Err(why) => Err(why),
    }
}

/// Why bytes are no file of these transactions on this level.
fn refused(why: LtxFault, level: u8, min: u64, max: u64) -> BackupFault
    ensures { (bytes : List ℕ) → AreBytes bytes → IsRefused bytes why → IsNoFile bytes level min max result }
{
    match why {
        LtxFault::NoMemory => BackupFault::NoMemory,
        _ => BackupFault::Damaged { level, min, max },
    }
}

/// The file that came. What came and is none is damaged, on this level and of these transactions.
fn come_as(coming: Coming, level: u8, min: u64, max: u64) -> Result<Ltx, BackupFault>
    ensures file { (bytes : List ℕ) → HasCome coming bytes → IfOk result (IsLtx bytes) }
    ensures none { (bytes : List ℕ) → HasCome coming bytes → IfErr result (IsNoFile bytes level min max) }
{
    match coming.finish() {
        Ok(file) => Ok(file),
        Err(why) => Err(refused(why, level, min, max)),
    }
}

/// The file of which an encoding has this name. What is none is damaged, on this level and of these
/// transactions.
pub fn read_named<D: Disk>(
    alloc: Global,
    disk: &mut D,
    name: FileName,
    level: u8,
    min: u64,
    max: u64,
) -> Result<Ltx, BackupFault>
    ensures file { IsTrue (D.honest disk.old) → IfOk result (IsLtx (bytes_of (now (D.history disk.old) name))) }
    ensures valid { IfOk result IsFile }
    ensures none { IsTrue (D.honest disk.old) → IfErr result (Blames level min max ((file : Ltx) → IsLtx (bytes_of (now (D.history disk.old) name)) file → ⊥)) }
    ensures rests { Rests (D.history disk.old) (D.history disk.new) }
    ensures honest { D.honest disk.new ≡ D.honest disk.old }
    ensures cause { HasCause (D.faults disk.old) (D.faults disk.new) result }
{
    let coming = match take_file(alloc, disk, name) {
        Ok(coming) => coming,
        Err(why) => return Err(why),
    };
    match come_as(coming, level, min, max) {
        Ok(file) => Ok(file),
        Err(why) => Err(why),
    }
}

/// The same of a file, which has the transactions of its name.
fn named(file: Ltx, level: u8, entry: &Entry) -> Result<Ltx, BackupFault>
    ensures same { IfOk result (λ same. same ≡ file) }
    ensures min { IfOk result (λ same. same.header.min ≡ entry.now.min) }
    ensures max { IfOk result (λ same. same.header.max ≡ entry.now.max) }
    ensures other { IfErr result (IsOther file level entry.now) }
{
    if file.header.min == entry.min && file.header.max == entry.max {
        return Ok(file);
    }
    Err(BackupFault::Damaged {
        level,
        min: entry.min,
        max: entry.max,
    })
}

/// The file under the numbers of an entry.
pub fn read_file<D: Disk>(
    alloc: Global,
    disk: &mut D,
    level: u8,
    entry: &Entry,
) -> Result<Ltx, BackupFault>
    ensures stands { IsTrue (D.honest disk.old) → IfOk result (Stands (now (D.history disk.old))) }
    ensures valid { IfOk result IsFile }
    ensures min { IfOk result (λ file. file.header.min ≡ entry.now.min) }
    ensures max { IfOk result (λ file. file.header.max ≡ entry.now.max) }
    ensures unread { IsTrue (D.honest disk.old) → IfErr result (IsUnread (now (D.history disk.old)) level entry.now) }
    ensures rests { Rests (D.history disk.old) (D.history disk.new) }
    ensures honest { D.honest disk.new ≡ D.honest disk.old }
    ensures cause { HasCause (D.faults disk.old) (D.faults disk.new) result }
{
    let file = match read_named(alloc, disk, entry.name(), level, entry.min, entry.max) {
        Ok(file) => file,
        Err(why) => return Err(why),
    };
    named(file, level, entry)
}
