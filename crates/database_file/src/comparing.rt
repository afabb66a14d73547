//! Pages compared with those of the committed image.
ghost use Rattle.std.specs.Prelude.{◌≡◌, ◌+◌, ◌/◌, ◌≤◌, ◌<◌, ◌^◌, length, IfOk, IfErr, OnOk};
ghost use Rattle.lf_base.specs.Faults.{CountsFaults};
ghost use Rattle.database_file.specs.Fault.{HasCause, SameBase};
ghost use Rattle.database_file.specs.Writing.{page_in};
ghost use Rattle.database_file.specs.WritingParts.{TellsSame, TellAllSame};

use crate::fault::FileFault;
use crate::reading::zeros;
use lf_base::{Failed, NoMemory};
use lf_sqlite_pages::PageStore;
use std::alloc::Global;

/// Whether page `n` of the committed image has these bytes. It is read into a buffer of its size.
pub(crate) fn is_committed<S: PageStore>(
    base: &mut S,
    n: u32,
    page: &[u8],
    standing: &mut [u8],
) -> Result<bool, Failed>
    requires first { 1 ≤ n }
    requires whole { n ≤ S.commit base.old → length standing.old ≡ S.page_size base.old }
    ensures same { IfOk result (TellsSame (S.image base.old) n page.now) }
    ensures cause { CountsFaults (S.faults base.old) (S.faults base.new) result }
    ensures base { SameBase S.PageStore base.old base.new }
{
    if n > base.commit() {
        return Ok(false);
    }
    base.page(n, standing)?;
    let standing: &[u8] = standing;
    Ok(standing == page)
}

/// For each page of `bytes`, which begin at page `first`, whether the committed image has it there.
pub(crate) fn compare<S: PageStore>(
    alloc: Global,
    base: &mut S,
    page_size: u32,
    first: u32,
    bytes: &[u8],
) -> Result<Vec<bool>, FileFault>
    requires first { 1 ≤ first }
    requires some { 0 < page_size }
    requires numbered { first + length bytes.now / page_size < 2 ^ 32 }
    requires size { 0 < S.commit base.old → page_size ≡ S.page_size base.old }
    ensures count { IfOk result (λ same. length same.items ≡ length bytes.now / page_size) }
    ensures same { IfOk result (λ same. TellAllSame (S.image base.old) first bytes.now page_size same.items) }
    ensures faults { OnOk result (S.faults base.new ≡ S.faults base.old) }
    ensures cause { IfErr result (HasCause (S.faults base.old) (S.faults base.new)) }
    ensures base { SameBase S.PageStore base.old base.new }
{
    let size = page_size as usize;
    let mut standing = zeros(alloc, size)?;
    let mut same = Vec::new(alloc);
    for at in 0..bytes.len() / size {
        let page = page_in(bytes, size, at);
        let found = is_committed(base, first + at as u32, page, standing.as_mut_slice())?;
        same.push(found).map_err(NoMemory::from)?;
    }
    Ok(same)
}

/// Page `at` of some bytes that are whole pages, counted from 0.
pub(crate) fn page_in(bytes: &[u8], size: usize, at: usize) -> &[u8]
    requires some { 0 < size }
    requires within { at < length bytes.now / size }
    ensures value { result.now ≡ page_in bytes.now size at }
    ensures whole { length result.now ≡ size }
{
    let (_, rest) = bytes.split_at(at * size);
    let (page, _) = rest.split_at(size);
    page
}
