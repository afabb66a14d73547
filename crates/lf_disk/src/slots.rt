//! A folder in memory.
ghost use Rattle.std.specs.Prelude.{◌≡◌, position, option_map, None, IfOk, OnOk, OnErr};
ghost use Rattle.lf_disk.specs.Folder.{same_name, Same, with_file, with_write, with_length, renamed};
ghost use Rattle.lf_disk.specs.Slots.{folder_of, names_of, IsOrderly, IsStanding, KeepsNames};

use crate::file;
use crate::name::{FileName, is_same};
use lf_base::Bytes;
use std::alloc::{AllocError, Global};

/// A name and the file that has it. A name stays when its file is removed.
#[derive(Debug, Drop)]
pub struct Slot {
    pub name: FileName,
    pub file: Option<Bytes>,
}

/// Where a name stands.
pub fn place(slots: &[Slot], name: FileName) -> Option<usize>
    ensures { result ≡ position (λ slot. same_name name slot.name) slots.now }
{
    slots.iter().position(|slot| is_same(name, slot.name))
}

/// Adds a name that stands nowhere, with no file.
fn add(slots: &mut Vec<Slot>, name: FileName) -> Result<(), AllocError>
    ensures stands { OnOk result (IsStanding name slots.new.items) }
    ensures folder { Same (folder_of slots.old.items) (folder_of slots.new.items) }
    ensures orderly { IsOrderly slots.old.items → IsOrderly slots.new.items }
{
    match place(slots, name) {
        Some(_) => Ok(()),
        None => Ok(slots.push(Slot { name, file: None })?),
    }
}

/// Takes the file away from a name.
fn take(slots: &mut Vec<Slot>, name: FileName) -> Option<Bytes>
    ensures file { result ≡ folder_of slots.old.items name }
    ensures folder { Same (with_file name None (folder_of slots.old.items)) (folder_of slots.new.items) }
    ensures names { KeepsNames slots.old.items slots.new.items }
{
    match place(slots, name) {
        Some(place) => slots[place].file.take(),
        None => None,
    }
}

/// Gives a name a file.
fn put(slots: &mut Vec<Slot>, name: FileName, file: Option<Bytes>)
    requires { IsStanding name slots.old.items }
    ensures folder { Same (with_file name file (folder_of slots.old.items)) (folder_of slots.new.items) }
    ensures names { KeepsNames slots.old.items slots.new.items }
{
    match place(slots, name) {
        Some(place) => slots[place].file = file,
        None => unreachable!(),
    }
}

/// Writes into a file, which it makes where there is none.
pub fn write(
    alloc: Global,
    slots: &mut Vec<Slot>,
    name: FileName,
    at: usize,
    piece: &[u8],
) -> Result<(), AllocError>
    ensures ok { OnOk result
        (Same (with_write name at piece.now (folder_of slots.old.items)) (folder_of slots.new.items)) }
    ensures err { OnErr result (Same (folder_of slots.old.items) (folder_of slots.new.items)) }
    ensures orderly { IsOrderly slots.old.items → IsOrderly slots.new.items }
{
    add(slots, name)?;
    let mut file = take(slots, name);
    let outcome = file::overwrite(alloc, &mut file, at, piece);
    put(slots, name, file);
    outcome
}

/// Gives a file a length. It makes one where there is none.
pub fn cut(
    alloc: Global,
    slots: &mut Vec<Slot>,
    name: FileName,
    len: usize,
) -> Result<(), AllocError>
    ensures ok { OnOk result
        (Same (with_length name len (folder_of slots.old.items)) (folder_of slots.new.items)) }
    ensures err { OnErr result (Same (folder_of slots.old.items) (folder_of slots.new.items)) }
    ensures orderly { IsOrderly slots.old.items → IsOrderly slots.new.items }
{
    add(slots, name)?;
    let mut file = take(slots, name);
    let outcome = file::resize(alloc, &mut file, len);
    put(slots, name, file);
    outcome
}

/// Gives what has one name the other.
pub fn rename(slots: &mut Vec<Slot>, from: FileName, to: FileName) -> Result<(), AllocError>
    ensures ok { OnOk result
        (Same (renamed from to (folder_of slots.old.items)) (folder_of slots.new.items)) }
    ensures err { OnErr result (Same (folder_of slots.old.items) (folder_of slots.new.items)) }
    ensures orderly { IsOrderly slots.old.items → IsOrderly slots.new.items }
{
    add(slots, to)?;
    let file = take(slots, from);
    put(slots, to, file);
    Ok(())
}

/// Removes a file, if there is one.
pub fn remove(slots: &mut Vec<Slot>, name: FileName)
    ensures folder { Same (with_file name None (folder_of slots.old.items)) (folder_of slots.new.items) }
    ensures orderly { IsOrderly slots.old.items → IsOrderly slots.new.items }
{
    // What it held is dropped.
    take(slots, name);
}

/// Puts the file of one folder into another.
pub fn copy(
    alloc: Global,
    slots: &mut Vec<Slot>,
    name: FileName,
    from: &[Slot],
) -> Result<(), AllocError>
    ensures ok { OnOk result
        (Same (with_file name (folder_of from.now name) (folder_of slots.old.items))
        (folder_of slots.new.items)) }
    ensures err { OnErr result (Same (folder_of slots.old.items) (folder_of slots.new.items)) }
    ensures orderly { IsOrderly slots.old.items → IsOrderly slots.new.items }
{
    let file = match find(from, name) {
        Some(bytes) => Some(Bytes::of(Vec::from_slice(alloc, bytes)?)),
        None => None,
    };
    add(slots, name)?;
    put(slots, name, file);
    Ok(())
}

/// The bytes of a file.
pub fn find(slots: &[Slot], name: FileName) -> Option<&[u8]>
    ensures { option_map (λ bytes. bytes.now) result ≡ folder_of slots.now name }
{
    match place(slots, name) {
        Some(place) => bytes_in(&slots[place]),
        None => None,
    }
}

fn bytes_in(slot: &Slot) -> Option<&[u8]>
    ensures { option_map (λ bytes. bytes.now) result ≡ slot.now.file }
{
    match &slot.file {
        Some(bytes) => Some(bytes.as_slice()),
        None => None,
    }
}

/// The names of the files.
pub fn names(alloc: Global, slots: &[Slot]) -> Result<Vec<FileName>, AllocError>
    ensures { IfOk result (λ names. names.items ≡ names_of slots.now) }
{
    slots
        .iter()
        .filter(|slot| slot.file.is_some())
        .map(|slot| slot.name)
        .collect(alloc)
}

/// A folder that is the same.
pub fn copied(alloc: Global, slots: &[Slot]) -> Result<Vec<Slot>, AllocError>
    ensures { IfOk result (λ copy. copy.items ≡ slots.now) }
{
    let mut copy = Vec::new(alloc);
    for slot in slots {
        copy.push(copied_slot(alloc, slot)?)?;
    }
    Ok(copy)
}

fn copied_slot(alloc: Global, slot: &Slot) -> Result<Slot, AllocError>
    ensures { IfOk result (λ copy. copy ≡ slot.now) }
{
    let file = match &slot.file {
        Some(bytes) => Some(Bytes::of(Vec::from_slice(alloc, bytes.as_slice())?)),
        None => None,
    };
    Ok(Slot {
        name: slot.name,
        file,
    })
}
