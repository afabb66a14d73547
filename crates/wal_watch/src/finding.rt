//! The frames that hold a page. Those that the index lacks are found by walking over them.
ghost use Rattle.std.specs.Prelude.{◌≡◌, ◌+◌, ◌≤◌, ◌<◌, ◌^◌, length, IfSome, IsTrue, ◌↔◌};
ghost use Rattle.wal_watch.specs.Frames.{frame_place, number_in, page_size_in, committed_count};
ghost use Rattle.wal_watch.specs.Indexing.{indexed, IsIndex};
ghost use Rattle.wal_watch.specs.News.{latest_frame, HoldsFrame, HasSize};

use crate::frames::{holds_page, number_in, size_in};
use crate::index::FrameIndex;
use lf_sqlite_pages::Blocks;

/// The latest of the frames from `from` on, among the first `count`, that holds a page.
fn latest_since(
    contents: &Blocks,
    page_size: u32,
    page: u32,
    from: usize,
    count: usize,
) -> Option<usize>
    requires among { count ≤ committed_count contents.now.bytes }
    requires size { 0 < committed_count contents.now.bytes → page_size ≡ page_size_in contents.now.bytes }
    requires short { length contents.now.bytes < 2 ^ 62 }
    requires order { from ≤ count }
    ensures { result ≡ latest_frame contents.now.bytes page from count }
{
    let mut latest = None;
    for frame in from..count {
        if number_in(contents, page_size, frame) == page {
            latest = Some(frame);
        }
    }
    latest
}

/// The latest of the first `count` frames that holds a page. The index has no more frames than these.
pub fn latest_frame(
    contents: &Blocks,
    index: &FrameIndex,
    page_size: u32,
    page: u32,
    count: usize,
) -> Option<usize>
    requires among { count ≤ committed_count contents.now.bytes }
    requires size { 0 < committed_count contents.now.bytes → page_size ≡ page_size_in contents.now.bytes }
    requires short { length contents.now.bytes < 2 ^ 62 }
    requires index { IsIndex contents.now.bytes index.now }
    requires few { indexed index.now ≤ count }
    ensures latest { result ≡ latest_frame contents.now.bytes page 0 count }
    ensures there { IfSome result (λ frame. frame_place contents.now.bytes (frame + 1) ≤ length contents.now.bytes) }
{
    match latest_since(contents, page_size, page, index.len(), count) {
        None => index.latest(page),
        Some(frame) => Some(frame),
    }
}

/// The latest frame before a frame that holds the same page.
fn frame_before(
    contents: &Blocks,
    index: &FrameIndex,
    page_size: u32,
    page: u32,
    frame: usize,
) -> Option<usize>
    requires among { frame < committed_count contents.now.bytes }
    requires size { 0 < committed_count contents.now.bytes → page_size ≡ page_size_in contents.now.bytes }
    requires short { length contents.now.bytes < 2 ^ 62 }
    requires index { IsIndex contents.now.bytes index.now }
    requires page { page ≡ number_in contents.now.bytes frame }
    ensures { result ≡ latest_frame contents.now.bytes page 0 frame }
{
    if frame < index.len() {
        index.earlier(frame)
    } else {
        latest_frame(contents, index, page_size, page, frame)
    }
}

/// Whether one of the first `count` frames, the committed ones, holds a page with these bytes. It looks
/// at the frames of that page alone, the latest first.
pub fn holds_frame(
    contents: &Blocks,
    index: &FrameIndex,
    page_size: u32,
    count: usize,
    number: u32,
    page: &[u8],
) -> bool
    requires count { count ≡ committed_count contents.now.bytes }
    requires size { 0 < committed_count contents.now.bytes → page_size ≡ page_size_in contents.now.bytes }
    requires short { length contents.now.bytes < 2 ^ 62 }
    requires index { IsIndex contents.now.bytes index.now }
    requires few { indexed index.now ≤ count }
    requires whole { length page.now ≡ page_size }
    ensures { IsTrue result ↔ (HoldsFrame contents.now.bytes number page.now) }
{
    let mut next = latest_frame(contents, index, page_size, number, count);
    while let Some(frame) = next {
        if holds_page(contents, page_size, frame, page) {
            return true;
        }
        next = frame_before(contents, index, page_size, number, frame);
    }
    false
}

/// Whether one of the first `count` frames, the committed ones, states this database size.
pub fn holds_size(contents: &Blocks, page_size: u32, count: usize, pages: u32) -> bool
    requires count { count ≡ committed_count contents.now.bytes }
    requires size { 0 < count → page_size ≡ page_size_in contents.now.bytes }
    requires short { length contents.now.bytes < 2 ^ 62 }
    ensures { IsTrue result ↔ (HasSize contents.now.bytes pages) }
{
    for frame in 0..count {
        if size_in(contents, page_size, frame) == pages {
            return true;
        }
    }
    false
}
