//! A folder is examined, and nothing in it is changed.
ghost use Rattle.std.specs.Prelude.{◌≡◌, ◌∷◌, [], Some, length, IsTrue, IfOk, IfErr, is_some};
ghost use Rattle.lf_disk.specs.declared.name.FileName.{FileName as Name};
ghost use Rattle.lf_disk.specs.Folder.{bytes_of};
ghost use Rattle.lf_disk.specs.History.{now, Rests};
ghost use Rattle.ltx_codec.specs.Format.{IsHeader};
ghost use Rattle.node_recovery.specs.Agreeing.{IsTotal};
ghost use Rattle.node_recovery.specs.Finding.{JudgesSnapshot, AreEnded, IsShapedBy, ExaminesLog, Examines};
ghost use Rattle.node_recovery.specs.Outcome.{HasCause, IsBlameless, IsLastRead};
ghost use Rattle.txn_log.specs.Store.{files_in, AreEntries};
ghost use Rattle.node_recovery.specs.Outline.{entry_of as entry};

use crate::agreeing::judge_sum;
use crate::fault::RecoverFault;
use crate::file_summary::FileSummary;
use crate::found::{Decider, Found};
use crate::judged::Log;
use crate::judging::judge_log;
use crate::listing::list_log;
use crate::piece_reader::PieceReader;
use crate::reading::read_file;
use crate::tally::Tally;
use lf_disk::{Disk, FileName};
use std::alloc::Global;
use txn_log::Entry;

/// Whether a file stands.
fn is_there<D: Disk>(disk: &mut D, name: FileName) -> Result<bool, RecoverFault>
    ensures there { IsTrue (D.honest disk.old) → IfOk result (λ there. there ≡ is_some (now (D.history disk.old) name)) }
    ensures blameless { IfErr result IsBlameless }
    ensures rests { Rests (D.history disk.old) (D.history disk.new) }
    ensures honest { D.honest disk.new ≡ D.honest disk.old }
    ensures cause { HasCause (D.faults disk.old) (D.faults disk.new) result }
{
    match disk.size(name) {
        Ok(size) => Ok(size.is_some()),
        Err(_) => Err(RecoverFault::Disk),
    }
}

/// Reads the snapshot, and judges it. Its minimum is 1.
fn judge_snapshot<D: Disk>(
    alloc: Global,
    disk: &mut D,
    reader: &mut PieceReader,
) -> Result<FileSummary, RecoverFault>
    ensures valid { IfOk result (λ read. IsHeader read.outline.header) }
    ensures judges { IsTrue (D.honest disk.old) → JudgesSnapshot (bytes_of (now (D.history disk.old) Name.Snapshot)) (bytes_of (now (D.history disk.old) Name.Database)) result }
    ensures total { IfOk result (λ read. IsTotal read.outline read.tally.sums.sums) }
    ensures rests { Rests (D.history disk.old) (D.history disk.new) }
    ensures honest { D.honest disk.new ≡ D.honest disk.old }
    ensures cause { HasCause (D.faults disk.old) (D.faults disk.new) result }
{
    let read = read_file(alloc, disk, reader, FileName::Snapshot, true)?;
    let outline = read.outline;
    if outline.header.min != 1 {
        return Err(RecoverFault::Damaged {
            file: FileName::Snapshot,
            want: 1,
            got: outline.header.min,
        });
    }
    match judge_sum(alloc, disk, FileName::Snapshot, &outline, read.tally) {
        Ok(tally) => Ok(FileSummary { outline, tally }),
        Err(why) => Err(why),
    }
}

/// What a snapshot decides.
fn found_snapshot(
    alloc: Global,
    names: Vec<Entry>,
    read: FileSummary,
) -> Result<Found, RecoverFault>
    requires valid { IsHeader read.outline.header }
    requires total { IsTotal read.outline read.tally.sums.sums }
    ensures shaped { IfOk result IsShapedBy }
    ensures found { IfOk result (λ found. (found.names.items ≡ names.items) × (found.decider ≡ Decider.Snapshot read.outline)
        × (found.entries.items ≡ entry read.outline ∷ []) × (found.tally ≡ read.tally)) }
    ensures full { IfErr result (λ why. why ≡ RecoverFault.NoMemory) }
{
    let mut entries = Vec::new(alloc);
    match entries.push(read.outline.entry()) {
        Ok(()) => {}
        Err(_) => return Err(RecoverFault::NoMemory),
    }
    Ok(Found {
        names,
        decider: Decider::Snapshot(read.outline),
        entries,
        tally: read.tally,
    })
}

/// Compares the pages that the last file of a judged log leaves.
fn examine_last<D: Disk>(
    alloc: Global,
    disk: &mut D,
    names: Vec<Entry>,
    entries: Vec<Entry>,
    last: FileSummary,
) -> Result<Found, RecoverFault>
    requires ended { AreEnded entries.items (Some last.outline) }
    requires count { length last.tally.sums.sums ≡ last.outline.header.commit }
    ensures examines { IsTrue (D.honest disk.old) → AreEntries entries.items (files_in names.items (now (D.history disk.old)))
        → IsLastRead names.items (now (D.history disk.old)) last → ExaminesLog names.items (now (D.history disk.old)) result }
    ensures shaped { IfOk result IsShapedBy }
    ensures rests { Rests (D.history disk.old) (D.history disk.new) }
    ensures honest { D.honest disk.new ≡ D.honest disk.old }
    ensures cause { HasCause (D.faults disk.old) (D.faults disk.new) result }
{
    let outline = last.outline;
    match judge_sum(alloc, disk, outline.name(), &outline, last.tally) {
        Ok(tally) => Ok(Found {
            names,
            decider: Decider::Last(outline),
            entries,
            tally,
        }),
        Err(why) => Err(why),
    }
}

/// The size of the database file in bytes, 0 where it is absent.
fn database_size<D: Disk>(disk: &mut D) -> Result<u64, RecoverFault>
    ensures size { IsTrue (D.honest disk.old) → IfOk result (λ size. size ≡ length (bytes_of (now (D.history disk.old) Name.Database))) }
    ensures blameless { IfErr result IsBlameless }
    ensures rests { Rests (D.history disk.old) (D.history disk.new) }
    ensures honest { D.honest disk.new ≡ D.honest disk.old }
    ensures cause { HasCause (D.faults disk.old) (D.faults disk.new) result }
{
    match disk.size(FileName::Database) {
        Ok(Some(size)) => Ok(size),
        Ok(None) => Ok(0),
        Err(_) => Err(RecoverFault::Disk),
    }
}

/// Where there is no file of a log, the database file has no bytes.
fn examine_none<D: Disk>(
    alloc: Global,
    disk: &mut D,
    names: Vec<Entry>,
) -> Result<Found, RecoverFault>
    ensures examines { IsTrue (D.honest disk.old) → names.items ≡ [] → ExaminesLog names.items (now (D.history disk.old)) result }
    ensures shaped { IfOk result IsShapedBy }
    ensures rests { Rests (D.history disk.old) (D.history disk.new) }
    ensures honest { D.honest disk.new ≡ D.honest disk.old }
    ensures cause { HasCause (D.faults disk.old) (D.faults disk.new) result }
{
    let size = match database_size(disk) {
        Ok(size) => size,
        Err(why) => return Err(why),
    };
    if size > 0 {
        return Err(RecoverFault::Damaged {
            file: FileName::Database,
            want: 0,
            got: size,
        });
    }
    Ok(Found {
        names,
        decider: Decider::Nothing,
        entries: Vec::new(alloc),
        tally: Tally::none(alloc),
    })
}

/// Reads the log, judges it, and compares the pages that it leaves.
fn examine_log<D: Disk>(
    alloc: Global,
    disk: &mut D,
    reader: &mut PieceReader,
    names: Vec<Entry>,
) -> Result<Found, RecoverFault>
    ensures examines { IsTrue (D.honest disk.old) → ExaminesLog names.items (now (D.history disk.old)) result }
    ensures shaped { IfOk result IsShapedBy }
    ensures rests { Rests (D.history disk.old) (D.history disk.new) }
    ensures honest { D.honest disk.new ≡ D.honest disk.old }
    ensures cause { HasCause (D.faults disk.old) (D.faults disk.new) result }
{
    let log = match judge_log(alloc, disk, reader, names.as_slice()) {
        Ok(log) => log,
        Err(why) => return Err(why),
    };
    let Log { entries, last } = log;
    match last {
        None => examine_none(alloc, disk, names),
        Some(last) => examine_last(alloc, disk, names, entries, last),
    }
}

/// Reads and judges all that stands on a disk, file by file. Nothing is changed.
pub fn examine_by<D: Disk>(
    alloc: Global,
    disk: &mut D,
    reader: &mut PieceReader,
) -> Result<Found, RecoverFault>
    ensures examines { IsTrue (D.honest disk.old) → Examines (now (D.history disk.old)) result }
    ensures shaped { IfOk result IsShapedBy }
    ensures rests { Rests (D.history disk.old) (D.history disk.new) }
    ensures honest { D.honest disk.new ≡ D.honest disk.old }
    ensures cause { HasCause (D.faults disk.old) (D.faults disk.new) result }
{
    let names = match list_log(alloc, disk) {
        Ok(names) => names,
        Err(why) => return Err(why),
    };
    let snapshot = match is_there(disk, FileName::Snapshot) {
        Ok(there) => there,
        Err(why) => return Err(why),
    };
    if snapshot {
        return match judge_snapshot(alloc, disk, reader) {
            Ok(read) => found_snapshot(alloc, names, read),
            Err(why) => Err(why),
        };
    }
    let dropped = match is_there(disk, FileName::Dropped) {
        Ok(there) => there,
        Err(why) => return Err(why),
    };
    if dropped {
        return Ok(Found {
            names,
            decider: Decider::Mark,
            entries: Vec::new(alloc),
            tally: Tally::none(alloc),
        });
    }
    examine_log(alloc, disk, reader, names)
}

/// Reads and judges all that stands on a disk. Nothing is changed.
pub fn examine<D: Disk>(alloc: Global, disk: &mut D) -> Result<Found, RecoverFault>
    ensures examines { IsTrue (D.honest disk.old) → Examines (now (D.history disk.old)) result }
    ensures shaped { IfOk result IsShapedBy }
    ensures rests { Rests (D.history disk.old) (D.history disk.new) }
    ensures honest { D.honest disk.new ≡ D.honest disk.old }
    ensures cause { HasCause (D.faults disk.old) (D.faults disk.new) result }
{
    match PieceReader::new(alloc) {
        Ok(mut reader) => examine_by(alloc, disk, &mut reader),
        Err(_) => Err(RecoverFault::NoMemory),
    }
}
