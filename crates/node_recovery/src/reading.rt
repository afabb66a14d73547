//! A file is read to its end, and its pages are not kept.
ghost use Rattle.std.specs.Prelude.{◌≡◌, ℕ, List, true, Err, IsTrue, IfOk, IfErr, OnOk, OnErr, length};
ghost use Rattle.lf_disk.specs.Folder.{bytes_of};
ghost use Rattle.lf_disk.specs.History.{now, Rests};
ghost use Rattle.lf_sqlite_pages.specs.Change.{PageChange};
ghost use Rattle.ltx_codec.specs.Format.{IsHeader};
ghost use Rattle.node_recovery.specs.Outcome.{HasCause, IsBlameless, ReadsFile};
ghost use Rattle.node_recovery.specs.Reading.{change_after, IsSound};
ghost use Rattle.node_recovery.specs.Summing.{IsTallied, FitsIn};

use crate::fault::RecoverFault;
use crate::file_summary::FileSummary;
use crate::part::Part;
use crate::piece_reader::PieceReader;
use crate::tally::Tally;
use lf_base::NoMemory;
use lf_disk::{Disk, FileName};
use std::alloc::Global;

/// So many zeros.
pub fn zeros(alloc: Global, len: usize) -> Result<Vec<u8>, RecoverFault>
    ensures len { IfOk result (λ encoding. length encoding.items ≡ len) }
    ensures memory { OnErr result (result ≡ Err RecoverFault.NoMemory) }
    ensures blameless { IfErr result IsBlameless }
{
    let mut encoding = Vec::new(alloc);
    match encoding.resize(len, 0u8) {
        Ok(()) => Ok(encoding),
        Err(_) => Err(RecoverFault::NoMemory),
    }
}

/// Takes note of what came: of a header that there are so many pages, and of a page.
fn note(alloc: Global, reader: &PieceReader, came: Part, tally: &mut Tally) -> Result<(), NoMemory>
    requires { FitsIn came tally.old }
    ensures { OnOk result ((encoding next : List ℕ) (change : PageChange) → IsSound came encoding next (change_after came reader.now change)
        → IsTallied change tally.old → IsTallied (change_after came reader.now change) tally.new) }
{
    match came {
        Part::Header => *tally = Tally::of(alloc, reader.header().commit)?,
        Part::Page { number } => tally.add(number, reader.page()),
        Part::More => {}
    }
    Ok(())
}

/// Reads all bytes under a name, and takes note of the pages where they are asked for.
pub fn read_file<D: Disk>(
    alloc: Global,
    disk: &mut D,
    reader: &mut PieceReader,
    name: FileName,
    pages: bool,
) -> Result<FileSummary, RecoverFault>
    ensures valid { IfOk result (λ read. IsHeader read.outline.header) }
    ensures count { IfOk result (λ read. pages ≡ true → length read.tally.sums.sums ≡ read.outline.header.commit) }
    ensures reads { IsTrue (D.honest disk.old) → ReadsFile name (bytes_of (now (D.history disk.old) name)) pages result }
    ensures rests { Rests (D.history disk.old) (D.history disk.new) }
    ensures honest { D.honest disk.new ≡ D.honest disk.old }
    ensures cause { HasCause (D.faults disk.old) (D.faults disk.new) result }
{
    match reader.open(disk, name) {
        Ok(()) => {}
        Err(_) => return Err(RecoverFault::Disk),
    }
    let mut tally = Tally::none(alloc);
    'parts: loop {
        match reader.refill(disk, name) {
            Ok(true) => {}
            Ok(false) => break,
            Err(_) => return Err(RecoverFault::Disk),
        }
        let came = reader.step();
        if !pages {
            continue;
        }
        match note(alloc, reader, came, &mut tally) {
            Ok(()) => {}
            Err(_) => return Err(RecoverFault::NoMemory),
        }
    }
    match reader.finish() {
        Ok(outline) => Ok(FileSummary { outline, tally }),
        Err(fault) => Err(RecoverFault::Damaged {
            file: name,
            want: 0,
            got: u64::from(fault.number()),
        }),
    }
}
