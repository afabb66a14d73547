//! Whether a change leaves the image as it is.
ghost use Rattle.std.specs.Prelude.{◌≡◌, ◌↔◌, ◌≤◌, ◌<◌, IsTrue, length, IfOk, IfErr, IfSome, OnOk};
ghost use Rattle.lf_base.specs.Faults.{CountsFaults};
ghost use Rattle.lf_sqlite_pages.specs.Image.{SameImage};
ghost use Rattle.lf_sqlite_pages.specs.Apply.{apply};
ghost use Rattle.database_file.specs.Fault.{HasCause, SameBase};
ghost use Rattle.database_file.specs.WritingParts.{TellsSame};

use crate::news::zeros;
use database_file::FileFault;
use lf_base::Failed;
use lf_sqlite_pages::{Change, PageStore, sound_store};
use std::alloc::Global;

/// Whether page `n` of the image has these bytes. It is read into a buffer of its size.
fn is_there<S: PageStore>(
    base: &mut S,
    n: u32,
    bytes: &[u8],
    page: &mut [u8],
) -> Result<bool, Failed>
    requires first { 1 ≤ n }
    requires last { n ≤ S.commit base.old }
    requires whole { length page.old ≡ S.page_size base.old }
    ensures same { IfOk result (TellsSame (S.image base.old) n bytes.now) }
    ensures cause { CountsFaults (S.faults base.old) (S.faults base.new) result }
    ensures base { SameBase S.PageStore base.old base.new }
{
    base.page(n, page)?;
    let page: &[u8] = page;
    Ok(page == bytes)
}

/// Whether a change to as many pages as the image has writes the image's own pages alone. Pages are
/// read into a buffer of their size.
fn writes_the_same<S: PageStore>(
    base: &mut S,
    change: &Change,
    page: &mut [u8],
) -> Result<bool, Failed>
    requires sized { 0 < S.commit base.old → S.page_size base.old ≡ change.now.page_size }
    requires count { change.now.commit ≡ S.commit base.old }
    requires whole { length page.old ≡ change.now.page_size }
    ensures told { IfOk result (λ same. IfSome (S.image base.old) (λ i. IsTrue same ↔ SameImage (apply i change.now) i)) }
    ensures cause { CountsFaults (S.faults base.old) (S.faults base.new) result }
    ensures base { SameBase S.PageStore base.old base.new }
{
    sound_store(base);
    let pages = change.pages();
    for at in 0..pages.len() {
        let write = &pages[at];
        let same = is_there(base, write.number, write.bytes.as_slice(), page)?;
        if !same {
            return Ok(false);
        }
    }
    Ok(true)
}

/// Whether a change leaves the committed image as it is: as many pages, and no other bytes.
pub fn leaves_image<S: PageStore>(
    alloc: Global,
    base: &mut S,
    change: &Change,
) -> Result<bool, FileFault>
    requires sized { 0 < S.commit base.old → S.page_size base.old ≡ change.now.page_size }
    ensures told { IfOk result (λ same. IfSome (S.image base.old) (λ i. IsTrue same ↔ SameImage (apply i change.now) i)) }
    ensures count { IfOk result (λ same. IsTrue same → change.now.commit ≡ S.commit base.old) }
    ensures faults { OnOk result (S.faults base.new ≡ S.faults base.old) }
    ensures cause { IfErr result (HasCause (S.faults base.old) (S.faults base.new)) }
    ensures base { SameBase S.PageStore base.old base.new }
{
    if change.commit() != base.commit() {
        return Ok(false);
    }
    let mut page = zeros(alloc, change.page_size() as usize)?;
    let same = writes_the_same(base, change, page.as_mut_slice())?;
    Ok(same)
}
