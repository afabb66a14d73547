//! A transaction file is staged: a short one by one call, a large one in parts that are gathered.
ghost use Rattle.std.specs.Prelude.{◌≡◌, IsTrue, IfSome, OnOk, ◌+◌, ◌≤◌, ◌<◌, ◌^◌, ◌++◌, ℕ, List, length, []};
ghost use Rattle.lf_base.specs.Faults.{CountsFaults};
ghost use Rattle.lf_disk.specs.Folder.{SameBut, Folder};
ghost use Rattle.lf_disk.specs.History.{now, EachMoment, IsSettledBut};
ghost use Rattle.lf_disk.specs.Publish.{IsStaged};
ghost use Rattle.lf_disk.specs.declared.name.FileName.{FileName as Name};
ghost use Rattle.ltx_codec.specs.Format.{IsFile, file_encoding, no_meaning, page_encoding, pages_encoding};
ghost use Rattle.page_checksum.specs.Crc.{after_bytes, all_ones};
ghost use Rattle.ltx_codec.specs.declared.file.Ltx.{Ltx as File};
ghost use Rattle.txn_log.specs.Staging.{HasGathered, front_encoding};

use crate::staging::clear;
use lf_base::Failed;
use lf_disk::{Disk, FileName, stage};
use lf_sqlite_pages::Change;
use ltx_codec::{Ltx, encode, header_bytes, sealed, trailer_bytes};
use page_checksum::{FIRST_REGISTER, crc_feed};
use std::alloc::Global;

/// The most bytes of pages that a short file has.
const SHORT: usize = 1 << 20;

/// The encoding of a short file, where there is memory for it.
fn short_encoding(alloc: Global, file: &Ltx) -> Option<Vec<u8>>
    requires { IsFile file.now }
    ensures { IfSome result (λ encoding. encoding.items ≡ file_encoding file.now no_meaning) }
{
    let pages = file.change.pages().len();
    if pages.saturating_mul(file.change.page_size() as usize) > SHORT {
        return None;
    }
    let mut encoding = Vec::new(alloc);
    match encode(file, &mut encoding) {
        Ok(()) => Some(encoding),
        Err(_) => None,
    }
}

/// Makes the staged file the encoding of a file, and syncs it. What was left in it before a short file
/// is written over. It needs no memory: without memory for a short file, that too is staged in parts.
pub fn stage_file<D: Disk>(alloc: Global, disk: &mut D, file: &Ltx) -> Result<(), Failed>
    requires valid { IsFile file.now }
    requires settled { IsTrue (D.honest disk.old) → IsSettledBut Name.Staged (D.history disk.old) }
    ensures moments { IsTrue (D.honest disk.old)
        → EachMoment (D.history disk.old) (D.history disk.new) (SameBut Name.Staged (now (D.history disk.old))) }
    ensures staged { IsTrue (D.honest disk.old) → OnOk result
        (IsStaged (now (D.history disk.old)) (file_encoding file.now no_meaning) (D.history disk.new)) }
    ensures honest { D.honest disk.new ≡ D.honest disk.old }
    ensures cause { CountsFaults (D.faults disk.old) (D.faults disk.new) result }
{
    match short_encoding(alloc, file) {
        Some(encoding) => stage(disk, encoding.as_slice()),
        None => stage_parts(alloc, disk, file),
    }
}

/// Gathers a page behind those before.
fn gather_page<D: Disk>(
    disk: &mut D,
    gathering: &mut Gathering,
    number: u32,
    page: &[u8],
) -> Result<(), Failed>
    requires { gathering.old.at + length gathering.old.gathered.items + (4 + length page.now) < 2 ^ 64 }
    ensures moments { IsTrue (D.honest disk.old) → (before : Folder) (encoding : List ℕ)
        → HasGathered before gathering.old.at gathering.old.gathered.items encoding (D.history disk.old)
        → EachMoment (D.history disk.old) (D.history disk.new) (SameBut Name.Staged before) }
    ensures gathers { IsTrue (D.honest disk.old) → OnOk result ((before : Folder) (encoding : List ℕ)
        → HasGathered before gathering.old.at gathering.old.gathered.items encoding (D.history disk.old)
        → HasGathered before gathering.new.at gathering.new.gathered.items (encoding ++ page_encoding number page.now) (D.history disk.new)) }
    ensures counts { OnOk result (gathering.new.at + length gathering.new.gathered.items
        ≡ gathering.old.at + length gathering.old.gathered.items + (4 + length page.now)) }
    ensures register { OnOk result (gathering.new.register ≡ after_bytes gathering.old.register (page_encoding number page.now)) }
    ensures honest { D.honest disk.new ≡ D.honest disk.old }
    ensures cause { CountsFaults (D.faults disk.old) (D.faults disk.new) result }
{
    gather(disk, gathering, &number.to_be_bytes())?;
    gather(disk, gathering, page)?;
    Ok(())
}

/// Gathers the pages of a change behind a header.
fn gather_pages<D: Disk>(
    disk: &mut D,
    gathering: &mut Gathering,
    change: &Change,
) -> Result<(), Failed>
    requires { gathering.old.at + length gathering.old.gathered.items ≤ 100 }
    ensures moments { IsTrue (D.honest disk.old) → (before : Folder) (encoding : List ℕ)
        → HasGathered before gathering.old.at gathering.old.gathered.items encoding (D.history disk.old)
        → EachMoment (D.history disk.old) (D.history disk.new) (SameBut Name.Staged before) }
    ensures gathers { IsTrue (D.honest disk.old) → OnOk result ((before : Folder) (encoding : List ℕ)
        → HasGathered before gathering.old.at gathering.old.gathered.items encoding (D.history disk.old)
        → HasGathered before gathering.new.at gathering.new.gathered.items (encoding ++ pages_encoding change.now.pages) (D.history disk.new)) }
    ensures counts { OnOk result (gathering.new.at + length gathering.new.gathered.items < 2 ^ 63) }
    ensures register { OnOk result (gathering.new.register ≡ after_bytes gathering.old.register (pages_encoding change.now.pages)) }
    ensures honest { D.honest disk.new ≡ D.honest disk.old }
    ensures cause { CountsFaults (D.faults disk.old) (D.faults disk.new) result }
{
    let _commit = change.commit();
    for page in change.pages() {
        gather_page(disk, gathering, page.number, page.bytes.as_slice())?;
    }
    Ok(())
}

/// Writes what is gathered, with the trailer behind it: the sum of the pages and the file sum. The file is synced.
fn finish<D: Disk>(disk: &mut D, gathering: &mut Gathering, post: u64) -> Result<(), Failed>
    requires { gathering.old.at + length gathering.old.gathered.items < 2 ^ 63 }
    ensures moments { IsTrue (D.honest disk.old) → (before : Folder) (encoding : List ℕ)
        → HasGathered before gathering.old.at gathering.old.gathered.items encoding (D.history disk.old)
        → EachMoment (D.history disk.old) (D.history disk.new) (SameBut Name.Staged before) }
    ensures staged { IsTrue (D.honest disk.old) → OnOk result ((before : Folder) (file : File)
        → gathering.old.register ≡ after_bytes all_ones (front_encoding file.header file.change.pages) → post ≡ file.post
        → HasGathered before gathering.old.at gathering.old.gathered.items (front_encoding file.header file.change.pages) (D.history disk.old)
        → IsStaged before (file_encoding file no_meaning) (D.history disk.new)) }
    ensures honest { D.honest disk.new ≡ D.honest disk.old }
    ensures cause { CountsFaults (D.faults disk.old) (D.faults disk.new) result }
{
    let sum = post.to_be_bytes();
    gather(disk, gathering, &[0; 4])?;
    let register = crc_feed(gathering.register, &sum);
    let file_sum = sealed(register);
    gather(disk, gathering, &trailer_bytes(post, file_sum))?;
    flush(disk, gathering)?;
    disk.sync(FileName::Staged)?;
    Ok(())
}

/// Makes the staged file the encoding of a file, part by part, and syncs it. It needs no memory: what
/// cannot be gathered is written at once.
pub fn stage_parts<D: Disk>(alloc: Global, disk: &mut D, file: &Ltx) -> Result<(), Failed>
    requires { IsTrue (D.honest disk.old) → IsSettledBut Name.Staged (D.history disk.old) }
    ensures moments { IsTrue (D.honest disk.old)
        → EachMoment (D.history disk.old) (D.history disk.new) (SameBut Name.Staged (now (D.history disk.old))) }
    ensures staged { IsTrue (D.honest disk.old) → OnOk result
        (IsStaged (now (D.history disk.old)) (file_encoding file.now no_meaning) (D.history disk.new)) }
    ensures honest { D.honest disk.new ≡ D.honest disk.old }
    ensures cause { CountsFaults (D.faults disk.old) (D.faults disk.new) result }
{
    clear(disk)?;
    let mut gathering = begin_gathering(alloc);
    gather(disk, &mut gathering, &header_bytes(&file.header))?;
    gather_pages(disk, &mut gathering, &file.change)?;
    finish(disk, &mut gathering, file.post)?;
    Ok(())
}

/// How many bytes are gathered at most.
const PART: usize = 1 << 17;

/// How far a file was gathered.
#[derive(Drop)]
pub struct Gathering {
    /// The number of bytes that were written.
    pub at: u64,
    /// The bytes behind them.
    pub gathered: Vec<u8>,
    /// The checksum's register after both.
    pub register: u64,
}

/// Nothing was gathered.
pub fn begin_gathering(alloc: Global) -> Gathering
    ensures { (result.at ≡ 0) × (result.gathered.items ≡ []) × (result.register ≡ all_ones) }
{
    Gathering {
        at: 0,
        gathered: Vec::new(alloc),
        register: FIRST_REGISTER,
    }
}

/// Writes bytes behind those that were written.
fn write_behind<D: Disk>(disk: &mut D, at: &mut u64, bytes: &[u8]) -> Result<(), Failed>
    requires { at.old + length bytes.now < 2 ^ 64 }
    ensures moments { IsTrue (D.honest disk.old) → (before : Folder) (encoding : List ℕ)
        → HasGathered before at.old bytes.now encoding (D.history disk.old)
        → EachMoment (D.history disk.old) (D.history disk.new) (SameBut Name.Staged before) }
    ensures gathers { IsTrue (D.honest disk.old) → OnOk result ((before : Folder) (encoding : List ℕ)
        → HasGathered before at.old bytes.now encoding (D.history disk.old)
        → HasGathered before at.new [] encoding (D.history disk.new)) }
    ensures counts { OnOk result (at.new ≡ at.old + length bytes.now) }
    ensures honest { D.honest disk.new ≡ D.honest disk.old }
    ensures cause { CountsFaults (D.faults disk.old) (D.faults disk.new) result }
{
    disk.write(FileName::Staged, *at, bytes)?;
    *at += bytes.len() as u64;
    Ok(())
}

/// Writes what is gathered.
pub fn flush<D: Disk>(disk: &mut D, gathering: &mut Gathering) -> Result<(), Failed>
    requires { gathering.old.at + length gathering.old.gathered.items < 2 ^ 64 }
    ensures moments { IsTrue (D.honest disk.old) → (before : Folder) (encoding : List ℕ)
        → HasGathered before gathering.old.at gathering.old.gathered.items encoding (D.history disk.old)
        → EachMoment (D.history disk.old) (D.history disk.new) (SameBut Name.Staged before) }
    ensures gathers { IsTrue (D.honest disk.old) → OnOk result ((before : Folder) (encoding : List ℕ)
        → HasGathered before gathering.old.at gathering.old.gathered.items encoding (D.history disk.old)
        → HasGathered before gathering.new.at gathering.new.gathered.items encoding (D.history disk.new)) }
    ensures counts { OnOk result (gathering.new.at ≡ gathering.old.at + length gathering.old.gathered.items) }
    ensures none { OnOk result (gathering.new.gathered.items ≡ []) }
    ensures register { OnOk result (gathering.new.register ≡ gathering.old.register) }
    ensures honest { D.honest disk.new ≡ D.honest disk.old }
    ensures cause { CountsFaults (D.faults disk.old) (D.faults disk.new) result }
{
    write_behind(disk, &mut gathering.at, gathering.gathered.as_slice())?;
    gathering.gathered.clear();
    Ok(())
}

/// Makes room for so many bytes more: where they are too many for one part, what is gathered is written.
fn make_room<D: Disk>(disk: &mut D, gathering: &mut Gathering, more: usize) -> Result<(), Failed>
    requires { gathering.old.at + length gathering.old.gathered.items < 2 ^ 64 }
    ensures moments { IsTrue (D.honest disk.old) → (before : Folder) (encoding : List ℕ)
        → HasGathered before gathering.old.at gathering.old.gathered.items encoding (D.history disk.old)
        → EachMoment (D.history disk.old) (D.history disk.new) (SameBut Name.Staged before) }
    ensures gathers { IsTrue (D.honest disk.old) → OnOk result ((before : Folder) (encoding : List ℕ)
        → HasGathered before gathering.old.at gathering.old.gathered.items encoding (D.history disk.old)
        → HasGathered before gathering.new.at gathering.new.gathered.items encoding (D.history disk.new)) }
    ensures counts { OnOk result (gathering.new.at + length gathering.new.gathered.items ≡ gathering.old.at + length gathering.old.gathered.items) }
    ensures register { OnOk result (gathering.new.register ≡ gathering.old.register) }
    ensures honest { D.honest disk.new ≡ D.honest disk.old }
    ensures cause { CountsFaults (D.faults disk.old) (D.faults disk.new) result }
{
    if more.saturating_add(gathering.gathered.len()) <= PART {
        return Ok(());
    }
    flush(disk, gathering)
}

/// Writes what is gathered, and bytes behind it.
fn write_through<D: Disk>(
    disk: &mut D,
    gathering: &mut Gathering,
    bytes: &[u8],
) -> Result<(), Failed>
    requires { gathering.old.at + length gathering.old.gathered.items + length bytes.now < 2 ^ 64 }
    ensures moments { IsTrue (D.honest disk.old) → (before : Folder) (encoding : List ℕ)
        → HasGathered before gathering.old.at gathering.old.gathered.items encoding (D.history disk.old)
        → EachMoment (D.history disk.old) (D.history disk.new) (SameBut Name.Staged before) }
    ensures gathers { IsTrue (D.honest disk.old) → OnOk result ((before : Folder) (encoding : List ℕ)
        → HasGathered before gathering.old.at gathering.old.gathered.items encoding (D.history disk.old)
        → HasGathered before gathering.new.at gathering.new.gathered.items (encoding ++ bytes.now) (D.history disk.new)) }
    ensures counts { OnOk result (gathering.new.at + length gathering.new.gathered.items
        ≡ gathering.old.at + length gathering.old.gathered.items + length bytes.now) }
    ensures register { OnOk result (gathering.new.register ≡ gathering.old.register) }
    ensures honest { D.honest disk.new ≡ D.honest disk.old }
    ensures cause { CountsFaults (D.faults disk.old) (D.faults disk.new) result }
{
    flush(disk, gathering)?;
    write_behind(disk, &mut gathering.at, bytes)?;
    Ok(())
}

/// Takes bytes behind those before. Without memory to gather them they are written.
fn take<D: Disk>(disk: &mut D, gathering: &mut Gathering, bytes: &[u8]) -> Result<(), Failed>
    requires { gathering.old.at + length gathering.old.gathered.items + length bytes.now < 2 ^ 64 }
    ensures moments { IsTrue (D.honest disk.old) → (before : Folder) (encoding : List ℕ)
        → HasGathered before gathering.old.at gathering.old.gathered.items encoding (D.history disk.old)
        → EachMoment (D.history disk.old) (D.history disk.new) (SameBut Name.Staged before) }
    ensures gathers { IsTrue (D.honest disk.old) → OnOk result ((before : Folder) (encoding : List ℕ)
        → HasGathered before gathering.old.at gathering.old.gathered.items encoding (D.history disk.old)
        → HasGathered before gathering.new.at gathering.new.gathered.items (encoding ++ bytes.now) (D.history disk.new)) }
    ensures counts { OnOk result (gathering.new.at + length gathering.new.gathered.items
        ≡ gathering.old.at + length gathering.old.gathered.items + length bytes.now) }
    ensures register { OnOk result (gathering.new.register ≡ gathering.old.register) }
    ensures honest { D.honest disk.new ≡ D.honest disk.old }
    ensures cause { CountsFaults (D.faults disk.old) (D.faults disk.new) result }
{
    match gathering.gathered.extend_from_slice(bytes) {
        Ok(()) => Ok(()),
        Err(_) => write_through(disk, gathering, bytes),
    }
}

/// Adds bytes behind those before.
pub fn gather<D: Disk>(disk: &mut D, gathering: &mut Gathering, bytes: &[u8]) -> Result<(), Failed>
    requires { gathering.old.at + length gathering.old.gathered.items + length bytes.now < 2 ^ 64 }
    ensures moments { IsTrue (D.honest disk.old) → (before : Folder) (encoding : List ℕ)
        → HasGathered before gathering.old.at gathering.old.gathered.items encoding (D.history disk.old)
        → EachMoment (D.history disk.old) (D.history disk.new) (SameBut Name.Staged before) }
    ensures gathers { IsTrue (D.honest disk.old) → OnOk result ((before : Folder) (encoding : List ℕ)
        → HasGathered before gathering.old.at gathering.old.gathered.items encoding (D.history disk.old)
        → HasGathered before gathering.new.at gathering.new.gathered.items (encoding ++ bytes.now) (D.history disk.new)) }
    ensures counts { OnOk result (gathering.new.at + length gathering.new.gathered.items
        ≡ gathering.old.at + length gathering.old.gathered.items + length bytes.now) }
    ensures register { OnOk result (gathering.new.register ≡ after_bytes gathering.old.register bytes.now) }
    ensures honest { D.honest disk.new ≡ D.honest disk.old }
    ensures cause { CountsFaults (D.faults disk.old) (D.faults disk.new) result }
{
    make_room(disk, gathering, bytes.len())?;
    take(disk, gathering, bytes)?;
    gathering.register = crc_feed(gathering.register, bytes);
    Ok(())
}
