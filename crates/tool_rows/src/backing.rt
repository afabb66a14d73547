//! Each row on a backup is played: it is run, and what it comes to is printed.
ghost use Rattle.std.specs.Prelude.{All, IfOk};
ghost use Rattle.node_objects.specs.MemMaker.{IsNewDisk, IsNewPhone};

use crate::backups::{BackupRow, Last, Stream};
use crate::making::{asking_maker, dialers, watched_link, write_file};
use crate::playing::{print_watched, run_named};
use crate::running::host_with;
use lf_base::{Bytes, Handles, MemDialer, Name, Pos, SliceSource, Watch};
use lf_disk::MemDisk;
use node_objects::MemMaker;
use std::alloc::Global;
use std::fs;
use std::io::Print;
use std::process::Processes;
use std::rt::Files;
use stream_wire::{Frame, encode_frame};
use test_base::{Fault, NEVER, one};

/// A name, which is one.
fn name_of(alloc: Global, name: &str) -> Result<Name, Fault> {
    match Name::read(alloc, name.as_bytes()) {
        Ok(name) => Ok(name),
        Err(_) => Err(Fault::Row),
    }
}

/// Appends the frame of a file.
fn put_file(alloc: Global, name: Name, file: Vec<u8>, out: &mut Vec<u8>) -> Result<(), Fault> {
    let frame = Frame::Ltx {
        name,
        bytes: Bytes::of(file),
    };
    encode_frame(&frame, out)?;
    Ok(())
}

/// Appends what stands behind the files.
fn put_last(alloc: Global, stream: &Stream, out: &mut Vec<u8>) -> Result<(), Fault> {
    let name = name_of(alloc, stream.database)?;
    let pos = Pos { txid: 2, sum: 0 };
    match stream.last {
        Last::Ready => encode_frame(&Frame::Ready { name, pos }, out)?,
        Last::Drop => encode_frame(&Frame::Drop { name }, out)?,
        Last::End => encode_frame(&Frame::End, out)?,
        Last::Nothing => {}
    }
    Ok(())
}

/// What the node of a row replies.
fn reply_of<R: Files + AllocGlobal>(rt: &R, stream: &Stream) -> Result<Vec<u8>, Fault> {
    let alloc = rt.alloc();
    let mut out = Vec::from_slice(alloc, stream.head)?;
    for file in stream.files {
        let bytes = fs::read(rt, *file)?;
        put_file(alloc, name_of(alloc, stream.database)?, bytes, &mut out)?;
    }
    put_last(alloc, stream, &mut out)?;
    Ok(out)
}

/// A disk with these files, as it is found after a stop.
#[tactic(auto, using(node_objects::proofs::DiskLemmas::rests))]
fn disk_with<R: Files + AllocGlobal>(
    rt: &R,
    files: &[(u64, &'static str)],
) -> Result<MemDisk, Fault>
    ensures { IfOk result IsNewDisk }
{
    let mut disk = MemDisk::new(rt.alloc(), Vec::new(rt.alloc()), None).unwrap();
    for (txid, name) in files {
        let bytes = fs::read(rt, *name)?;
        write_file(&mut disk, *txid, &bytes)?;
    }
    match disk.reopen() {
        Ok(disk) => Ok(disk),
        Err(_) => Err(Fault::NoMemory),
    }
}

/// A disk without files.
const BLANK: &[(u64, &'static str)] = &[];

/// Two disks, of which the first has these files.
fn two_disks<R: Files + AllocGlobal>(
    rt: &R,
    held: &[(u64, &'static str)],
) -> Result<Vec<MemDisk>, Fault>
    ensures { IfOk result (λ disks. All IsNewDisk disks.items) }
{
    let mut disks = one(rt.alloc(), disk_with(rt, held)?)?;
    disks.push(disk_with(rt, BLANK)?)?;
    Ok(disks)
}

/// Three of them.
fn three_disks<R: Files + AllocGlobal>(
    rt: &R,
    held: &[(u64, &'static str)],
) -> Result<Vec<MemDisk>, Fault>
    ensures { IfOk result (λ disks. All IsNewDisk disks.items) }
{
    let mut disks = one(rt.alloc(), disk_with(rt, held)?)?;
    disks.push(disk_with(rt, BLANK)?)?;
    disks.push(disk_with(rt, BLANK)?)?;
    Ok(disks)
}

/// The disks of a row: none, two or three.
fn disks_of<R: Files + AllocGlobal>(rt: &R, row: &BackupRow) -> Result<Vec<MemDisk>, Fault>
    ensures { IfOk result (λ disks. All IsNewDisk disks.items) }
{
    match row.disks {
        0 => Ok(Vec::new(rt.alloc())),
        2 => two_disks(rt, row.held),
        _ => three_disks(rt, row.held),
    }
}

/// The dialer of a row, and what shows what its link took.
fn dialer_of<R: Files + AllocGlobal>(
    rt: &R,
    row: &BackupRow,
) -> Result<(Vec<MemDialer>, Vec<Watch>), Fault>
    ensures { IfOk result (λ made. All IsNewPhone made.0.items) }
{
    let alloc = rt.alloc();
    let (mut links, mut watches) = (Vec::new(alloc), Vec::new(alloc));
    if let Some(stream) = &row.reply {
        let (link, watch) = watched_link(alloc, &reply_of(rt, stream)?, 4_096, NEVER)?;
        links.push(link)?;
        watches.push(watch)?;
    }
    Ok((dialers(alloc, links, NEVER)?, watches))
}

/// What a row's command is made of.
fn maker_of<R: Files + AllocGlobal>(
    rt: &R,
    row: &BackupRow,
) -> Result<(MemMaker, Vec<Watch>), Fault> {
    let alloc = rt.alloc();
    let (dialers, watches) = dialer_of(rt, row)?;
    Ok((asking_maker(alloc, disks_of(rt, row)?, dialers)?, watches))
}

/// A run of `backup` or `restore`.
pub fn play_backup<R: Handles + Processes + Files + Print + AllocGlobal + Copy + Send + 'static>(
    rt: R,
    row: &BackupRow,
) -> Result<(), Fault> {
    let alloc = rt.alloc();
    let (make, watches) = maker_of(&rt, row)?;
    let input = SliceSource::new(b"left alone", Vec::new(alloc)).unwrap();
    let mut host = host_with(alloc, input, row.output, make)?;
    run_named(rt, alloc, row.line, row.name, &mut host)?;
    print_watched(&rt, alloc, watches.as_slice())
}
