//! Where the committed frames of each page stand, so that none has to be looked for.
ghost use Rattle.std.specs.Prelude.{◌≡◌, ◌+◌, ◌≤◌, ◌<◌, ◌^◌, List, ℕ, length, min, if◌then◌else◌};
ghost use Rattle.wal_watch.specs.Frames.{number_in, page_size_in, committed_count};
ghost use Rattle.wal_watch.specs.Indexing.{indexed, IsIndex};
ghost use Rattle.wal_watch.specs.News.{latest_frame};

use crate::frames::number_in;
use lf_base::NoMemory;
use lf_sqlite_pages::Blocks;
use std::alloc::Global;
use std::collections::HashMap;

/// Of the first frames of a log, for each page the latest, and for each frame the one before it of the
/// same page. Frames are added and taken off at the end. It may have fewer frames than are committed.
#[derive(Drop)]
pub struct FrameIndex {
    latest: HashMap<u32, usize>,
    earlier: Vec<Option<usize>>,
}

impl FrameIndex {
    /// No frame.
    pub fn new(alloc: Global) -> FrameIndex
        ensures none { indexed result ≡ 0 }
        ensures index { (contents : List ℕ) → IsIndex contents result }
    {
        FrameIndex {
            latest: HashMap::new(alloc),
            earlier: Vec::new(alloc),
        }
    }

    /// How many frames it has.
    pub fn len(&self) -> usize
        ensures { result ≡ indexed self.now }
    {
        self.earlier.len()
    }

    /// The latest frame of a page.
    pub fn latest(&self, page: u32) -> Option<usize>
        ensures { (contents : List ℕ) → IsIndex contents self.now → result ≡ latest_frame contents page 0 (indexed self.now) }
    {
        self.latest.get(&page).copied()
    }

    /// The frame of the same page before a frame.
    pub fn earlier(&self, frame: usize) -> Option<usize>
        requires { frame < indexed self.now }
        ensures { (contents : List ℕ) → IsIndex contents self.now → result ≡ latest_frame contents (number_in contents frame) 0 frame }
    {
        self.earlier[frame]
    }

    /// Drops all frames, and keeps the room.
    pub fn clear(&mut self)
        ensures none { indexed self.new ≡ 0 }
        ensures index { (contents : List ℕ) → IsIndex contents self.new }
    {
        self.latest.clear();
        self.earlier.clear();
    }

    /// Goes over to other contents, whose first `shared` frames are of the same pages.
    pub fn go_over(&mut self, shared: usize)
        ensures among { indexed self.new ≤ shared }
        ensures index { (old new : List ℕ) → IsIndex old self.old → ((k : ℕ) → k < shared → number_in new k ≡ number_in old k) → IsIndex new self.new }
    {
        if self.len() > shared {
            self.clear();
        }
    }

    /// Makes room for more frames.
    pub fn reserve(&mut self, more: usize) -> Result<(), NoMemory>
        ensures len { indexed self.new ≡ indexed self.old }
        ensures index { (contents : List ℕ) → IsIndex contents self.old → IsIndex contents self.new }
    {
        self.latest.reserve(more)?;
        self.earlier.reserve(more)?;
        Ok(())
    }

    /// Adds the next frame, which holds `page`, if there is room for it. It takes no memory.
    fn push(&mut self, page: u32) -> bool
        ensures len { indexed self.new ≡ (if result then indexed self.old + 1 else indexed self.old) }
        ensures index { (contents : List ℕ) → IsIndex contents self.old → page ≡ number_in contents (indexed self.old) → IsIndex contents self.new }
    {
        let frame = self.earlier.len();
        if frame == self.earlier.capacity() || self.latest.len() == self.latest.capacity() {
            return false;
        }
        let Ok(earlier) = self.latest.insert(page, frame) else {
            return false;
        };
        self.earlier.push_reserved(earlier);
        true
    }

    /// Takes off the last frame, which holds `page`.
    fn pop(&mut self, page: u32)
        requires { 0 < indexed self.old }
        ensures len { indexed self.new + 1 ≡ indexed self.old }
        ensures index { (contents : List ℕ) → IsIndex contents self.old → page ≡ number_in contents (indexed self.new) → IsIndex contents self.new }
    {
        let Some(earlier) = self.earlier.pop() else {
            return;
        };
        match earlier {
            None => {
                self.latest.remove(&page);
            }
            Some(frame) => {
                if let Some(latest) = self.latest.get_mut(&page) {
                    *latest = frame;
                }
            }
        }
    }

    /// Adds the frames up to a count, all of them committed, as far as there is room. It takes no memory.
    pub fn extend(&mut self, contents: &Blocks, page_size: u32, count: usize)
        requires count { count ≡ committed_count contents.now.bytes }
        requires size { 0 < count → page_size ≡ page_size_in contents.now.bytes }
        requires short { length contents.now.bytes < 2 ^ 62 }
        requires index { IsIndex contents.now.bytes self.old }
        requires among { indexed self.old ≤ count }
        ensures index { IsIndex contents.now.bytes self.new }
        ensures among { indexed self.new ≤ count }
    {
        for frame in self.len()..count {
            if !self.push(number_in(contents, page_size, frame)) {
                return;
            }
        }
    }

    /// Takes off the frames behind the first `count`. All frames are committed.
    pub fn truncate(&mut self, contents: &Blocks, page_size: u32, count: usize)
        requires size { 0 < committed_count contents.now.bytes → page_size ≡ page_size_in contents.now.bytes }
        requires short { length contents.now.bytes < 2 ^ 62 }
        requires index { IsIndex contents.now.bytes self.old }
        requires among { indexed self.old ≤ committed_count contents.now.bytes }
        ensures index { IsIndex contents.now.bytes self.new }
        ensures among { indexed self.new ≡ min count (indexed self.old) }
    {
        while self.len() > count {
            let last = self.len() - 1;
            self.pop(number_in(contents, page_size, last));
        }
    }
}
