//! The change that committed frames make.
ghost use Rattle.std.specs.Prelude.{◌≡◌, ◌-◌, ◌≤◌, ◌<◌, ◌^◌, ◌↔◌, length, IsTrue, IfOk};
ghost use Rattle.lf_sqlite_pages.specs.Change.{empty_change};
ghost use Rattle.wal_watch.specs.Frames.{frame_place, page_size_in, size_in, committed_count};
ghost use Rattle.wal_watch.specs.News.{change_of, change_from, news_change};
ghost use Rattle.wal_watch.specs.Scanning.{HasCommitted};
ghost use Rattle.wal_watch.specs.Indexing.{indexed, IsIndex};
ghost use Rattle.wal_watch.specs.Searching.{HoldsPages, IsBefore};

use crate::frames::{fill_page, number_in, size_in};
use crate::index::FrameIndex;
use crate::news::WalNews;
use lf_base::NoMemory;
use lf_sqlite_pages::{Blocks, Change, lock_page};
use std::alloc::Global;
use std::collections::BTreeMap;

/// Whether a frame stands before another, where there is one.
fn is_before(frame: usize, other: Option<usize>) -> bool
    ensures { IsTrue result ↔ IsBefore frame other }
{
    match other {
        Some(other) => frame < other,
        None => false,
    }
}

/// Frames of a log: those from `first` on, before `count`.
#[derive(Clone, Copy, Debug)]
struct FrameRun {
    first: usize,
    count: usize,
}

/// The data pages within `commit` that some frames hold, each with the latest frame of it. A frame
/// that the index knows a later one of is passed over.
fn pages_held(
    alloc: Global,
    contents: &Blocks,
    index: &FrameIndex,
    frames: FrameRun,
    page_size: u32,
    commit: u32,
) -> Result<BTreeMap<u32, usize>, NoMemory>
    requires size { page_size ≡ page_size_in contents.now.bytes }
    requires some { 0 < page_size }
    requires room { frame_place contents.now.bytes frames.count ≤ length contents.now.bytes }
    requires short { length contents.now.bytes < 2 ^ 62 }
    requires order { frames.first ≤ frames.count }
    requires index { IsIndex contents.now.bytes index.now }
    requires few { indexed index.now ≤ frames.count }
    ensures { IfOk result (HoldsPages contents.now.bytes commit frames.first frames.count) }
{
    let lock = lock_page(page_size);
    let mut pages = BTreeMap::new(alloc);
    for frame in frames.first..frames.count {
        let page = number_in(contents, page_size, frame);
        let latest = index.latest(page);
        if page <= commit && page != lock && !is_before(frame, latest) {
            pages.insert(page, frame)?;
        }
    }
    Ok(pages)
}

/// The change that some frames make. `page` is a buffer of one page.
fn change_by(
    alloc: Global,
    contents: &Blocks,
    index: &FrameIndex,
    frames: FrameRun,
    mut change: Change,
    page: &mut [u8],
) -> Result<Change, NoMemory>
    requires committed { HasCommitted contents.now.bytes frames.count }
    requires short { length contents.now.bytes < 2 ^ 62 }
    requires order { frames.first ≤ frames.count }
    requires empty { change ≡ empty_change (page_size_in contents.now.bytes) (size_in contents.now.bytes (frames.count - 1)) }
    requires buffer { length page.old ≡ page_size_in contents.now.bytes }
    requires index { IsIndex contents.now.bytes index.now }
    requires few { indexed index.now ≤ frames.count }
    ensures { IfOk result (λ change. change ≡ change_of contents.now.bytes frames.first frames.count) }
{
    let page_size = change.page_size();
    let commit = change.commit();
    let mut pages = pages_held(alloc, contents, index, frames, page_size, commit)?;
    while let Some((number, frame)) = pages.pop_first() {
        fill_page(contents, page_size, frame, page);
        change.push(number, page)?;
    }
    Ok(change)
}

/// What the frames from `first` on commit, where `count` are committed.
pub fn news_from(
    alloc: Global,
    contents: &Blocks,
    index: &FrameIndex,
    page_size: u32,
    first: usize,
    count: usize,
) -> Result<WalNews, NoMemory>
    requires count { count ≡ committed_count contents.now.bytes }
    requires size { 0 < count → page_size ≡ page_size_in contents.now.bytes }
    requires short { length contents.now.bytes < 2 ^ 62 }
    requires index { IsIndex contents.now.bytes index.now }
    requires few { indexed index.now ≤ count }
    ensures { IfOk result (λ news. news_change news ≡ change_from first contents.now.bytes) }
{
    if first >= count {
        return Ok(WalNews::Stored);
    }
    let commit = size_in(contents, page_size, count - 1);
    let mut page = buffer(alloc, page_size as usize)?;
    let change = Change::new(alloc, page_size, commit);
    let change = change_by(
        alloc,
        contents,
        index,
        FrameRun { first, count },
        change,
        page.as_mut_slice(),
    )?;
    Ok(WalNews::Committed(change))
}

/// So many zeros.
fn buffer(alloc: Global, count: usize) -> Result<Vec<u8>, NoMemory>
    ensures { IfOk result (λ bytes. length bytes.items ≡ count) }
{
    let bytes = vec![in alloc; 0; count]?;
    Ok(bytes)
}
