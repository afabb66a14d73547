//! The log is judged, file by file: of what is wrong the first is told.
ghost use Rattle.std.specs.Prelude.{◌≡◌, ◌≤◌, true, length, IsTrue, IfOk, IfSome};
ghost use Rattle.std.specs.Option.{option_map};
ghost use Rattle.lf_disk.specs.declared.name.FileName.{FileName as Name};
ghost use Rattle.lf_disk.specs.Folder.{bytes_of};
ghost use Rattle.lf_disk.specs.History.{now, Rests};
ghost use Rattle.ltx_codec.specs.Format.{IsHeader};
ghost use Rattle.node_recovery.specs.Finding.{AreEnded};
ghost use Rattle.node_recovery.specs.Outcome.{HasCause, TellsMisnamed, TellsApart, Judges, JudgesLog};
ghost use Rattle.node_recovery.specs.Outline.{position_after};

use crate::fault::RecoverFault;
use crate::file_summary::FileSummary;
use crate::judged::Log;
use crate::outline::Outline;
use crate::piece_reader::PieceReader;
use crate::reading::read_file;
use lf_base::Pos;
use lf_disk::{Disk, FileName};
use ltx_codec::Header;
use std::alloc::Global;
use txn_log::Entry;

/// The numbers in which a header differs from its file's name: the name's and its own.
fn misnamed(name: &Entry, header: &Header) -> Option<(u64, u64)>
    ensures { TellsMisnamed name.now header.now result }
{
    if name.min != header.min {
        return Some((name.min, header.min));
    }
    if name.max != header.max {
        return Some((name.max, header.max));
    }
    None
}

/// The numbers in which a file differs from one that follows a position.
fn apart(position: Pos, file: &Outline) -> Option<(u64, u64)>
    requires { 1 ≤ file.now.header.min }
    ensures { TellsApart position file.now result }
{
    let before = file.before();
    if before.txid != position.txid {
        return Some((position.txid.saturating_add(1), file.header.min));
    }
    if before.sum != position.sum {
        return Some((position.sum, file.header.pre));
    }
    None
}

/// Reads the file of this name behind a position, and judges it.
fn judge_file<D: Disk>(
    alloc: Global,
    disk: &mut D,
    reader: &mut PieceReader,
    name: &Entry,
    position: Option<Pos>,
    pages: bool,
) -> Result<FileSummary, RecoverFault>
    ensures valid { IfOk result (λ read. IsHeader read.outline.header) }
    ensures count { IfOk result (λ read. pages ≡ true → length read.tally.sums.sums ≡ read.outline.header.commit) }
    ensures judges { IsTrue (D.honest disk.old) → Judges name.now position
        (bytes_of (now (D.history disk.old) (Name.Ltx name.now.min name.now.max))) pages result }
    ensures rests { Rests (D.history disk.old) (D.history disk.new) }
    ensures honest { D.honest disk.new ≡ D.honest disk.old }
    ensures cause { HasCause (D.faults disk.old) (D.faults disk.new) result }
{
    let file_name = FileName::Ltx {
        min: name.min,
        max: name.max,
    };
    let read = read_file(alloc, disk, reader, file_name, pages)?;
    if let Some((want, got)) = misnamed(name, &read.outline.header) {
        return Err(RecoverFault::Damaged {
            file: file_name,
            want,
            got,
        });
    }
    if let Some(before) = position {
        if let Some((want, got)) = apart(before, &read.outline) {
            return Err(RecoverFault::Damaged {
                file: file_name,
                want,
                got,
            });
        }
    }
    Ok(read)
}

/// The position behind a file.
fn behind(last: &Option<FileSummary>) -> Option<Pos>
    ensures { result ≡ option_map (λ read. position_after read.outline) last.now }
{
    match last {
        Some(read) => Some(read.outline.after()),
        None => None,
    }
}

/// Reads the files of these names, and judges them in order. The last one's pages are summed.
pub fn judge_log<D: Disk>(
    alloc: Global,
    disk: &mut D,
    reader: &mut PieceReader,
    names: &[Entry],
) -> Result<Log, RecoverFault>
    ensures judges { IsTrue (D.honest disk.old) → JudgesLog names.now (now (D.history disk.old)) result }
    ensures ended { IfOk result (λ log. AreEnded log.entries.items (option_map (λ read. read.outline) log.last)) }
    ensures count { IfOk result (λ log. IfSome log.last (λ read. length read.tally.sums.sums ≡ read.outline.header.commit)) }
    ensures rests { Rests (D.history disk.old) (D.history disk.new) }
    ensures honest { D.honest disk.new ≡ D.honest disk.old }
    ensures cause { HasCause (D.faults disk.old) (D.faults disk.new) result }
{
    let mut entries = Vec::new(alloc);
    let mut last = None;
    for (place, name) in names.iter().enumerate() {
        let is_last = place + 1 == names.len();
        let read = match judge_file(alloc, disk, reader, name, behind(&last), is_last) {
            Ok(read) => read,
            Err(why) => return Err(why),
        };
        match entries.push(read.outline.entry()) {
            Ok(()) => {}
            Err(_) => return Err(RecoverFault::NoMemory),
        }
        last = Some(read);
    }
    Ok(Log { entries, last })
}
