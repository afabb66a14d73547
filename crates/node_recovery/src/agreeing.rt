//! The pages are compared with the sum that the last file of the log says.
ghost use Rattle.std.specs.Prelude.{◌≡◌, length, IsTrue, IfOk};
ghost use Rattle.lf_disk.specs.declared.name.FileName.{FileName as Name};
ghost use Rattle.lf_disk.specs.Folder.{bytes_of};
ghost use Rattle.lf_disk.specs.History.{now, Rests};
ghost use Rattle.ltx_codec.specs.Format.{IsHeader, IsFile};
ghost use Rattle.ltx_codec.specs.declared.file.Ltx.{Ltx};
ghost use Rattle.node_recovery.specs.Outcome.{HasCause};
ghost use Rattle.node_recovery.specs.Outline.{outline_of};
ghost use Rattle.node_recovery.specs.Agreeing.{IsTotal, JudgesSum};
ghost use Rattle.node_recovery.specs.Summing.{IsTallied};

use crate::fault::RecoverFault;
use crate::outline::Outline;
use crate::summing::add_pages;
use crate::tally::Tally;
use lf_disk::{Disk, FileName};
use std::alloc::Global;

/// The tally of the pages that a file leaves, where they have together the sum that it says. The
/// pages that it holds are known.
pub fn judge_sum<D: Disk>(
    alloc: Global,
    disk: &mut D,
    name: FileName,
    outline: &Outline,
    held: Tally,
) -> Result<Tally, RecoverFault>
    requires valid { IsHeader outline.now.header }
    requires count { length held.sums.sums ≡ outline.now.header.commit }
    ensures judges { IsTrue (D.honest disk.old) → (file : Ltx) → IsFile file → outline.now ≡ outline_of file → IsTallied file.change held
        → JudgesSum name file (bytes_of (now (D.history disk.old) Name.Database)) result }
    ensures total { IfOk result (λ tally. IsTotal outline.now tally.sums.sums) }
    ensures rests { Rests (D.history disk.old) (D.history disk.new) }
    ensures honest { D.honest disk.new ≡ D.honest disk.old }
    ensures cause { HasCause (D.faults disk.old) (D.faults disk.new) result }
{
    let mut tally = held;
    add_pages(alloc, disk, &outline.header, &mut tally)?;
    let got = tally.sums.total();
    if got != outline.post {
        return Err(RecoverFault::Damaged {
            file: name,
            want: outline.post,
            got,
        });
    }
    Ok(tally)
}
