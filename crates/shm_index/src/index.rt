//! The index that the file begins with.
ghost use Rattle.std.specs.Prelude.{◌≡◌, ◌+◌, ◌≤◌, length, true};
ghost use Rattle.lf_base.specs.Endian.{le32_at};
ghost use Rattle.shm_index.specs.Shared.{bytes_of, with_bytes, has_index};
ghost use Rattle.shm_index.specs.Index.{next_change, with_fields, with_index, without_header, names_log};

use crate::file::{INDEX_SIZE, SharedMemory};
use crate::header::{index_fields, sums_bytes};
use lf_sqlite_pages::Blocks;

/// Where fields of the header stand: the change number, the number of frames, the log's salts.
const CHANGE_AT: u64 = 8;

const FRAMES_AT: u64 = 16;

const SALTS_AT: u64 = 32;

/// What stands behind the two headers: no frame was copied back, and no reader has a mark.
const REST: [u8; 24] = [
    0, 0, 0, 0, 0, 0, 0, 0, 255, 255, 255, 255, 255, 255, 255, 255, 255, 255, 255, 255, 255, 255,
    255, 255,
];

/// The little-endian number of the four bytes at a place.
#[tactic(auto, unfolding(lf_base::specs::Endian::le32_at))]
fn number_at(file: &Blocks, place: u64) -> u32
    requires { place + 4 ≤ length file.now.bytes }
    ensures { result ≡ le32_at place file.now.bytes }
{
    let mut field = [0u8; 4];
    // All four are there.
    file.read(place, &mut field);
    u32::from_le_bytes(field)
}

impl SharedMemory {
    /// Whether the file is long enough for an index.
    pub fn has_index(&self) -> bool
        ensures { result ≡ has_index self.now }
    {
        self.blocks.len() >= INDEX_SIZE
    }

    /// The change number of the next header.
    fn next_change(&self) -> u32
        requires { has_index self.now ≡ true }
        ensures { result ≡ next_change self.now }
    {
        let latest = number_at(&self.blocks, CHANGE_AT).max(self.last_change);
        latest.wrapping_add(1)
    }

    /// Puts a header of these fields twice, and what stands behind the two.
    #[tactic(auto, unfolding(crate::specs::Index::with_fields))]
    fn put_fields(&mut self, fields: &[u8])
        requires index { has_index self.old ≡ true }
        requires fields { length fields.now ≡ 40 }
        ensures { self.new ≡ with_bytes self.old (with_fields fields.now (bytes_of self.old)) }
    {
        let sums = sums_bytes(fields);
        self.blocks.write_within(0, fields);
        self.blocks.write_within(40, &sums);
        self.blocks.write_within(48, fields);
        self.blocks.write_within(88, &sums);
        self.blocks.write_within(96, &REST);
    }

    /// Makes the index that of a log without frames, over a database of this page size and number of
    /// pages. A file without an index stays. It takes no memory.
    pub fn begin_index(&mut self, page_size: u32, commit: u32)
        requires { page_size ≤ 65536 }
        ensures { self.new ≡ with_index page_size commit self.old }
    {
        if !self.has_index() {
            return;
        }
        let change = self.next_change();
        self.put_fields(&index_fields(page_size, commit, change));
        self.last_change = change;
    }

    /// Makes the two headers zeros, so that SQLite makes the index anew. A file without an index stays.
    /// It takes no memory.
    pub fn clear_header(&mut self)
        ensures { self.new ≡ without_header self.old }
    {
        if self.has_index() {
            self.blocks.write_within(0, &[0; 96]);
        }
    }

    /// Whether the index is of so many frames of a log with these salts.
    pub fn names_log(&self, frames: u64, salts: &[u8]) -> bool
        requires index { has_index self.now ≡ true }
        requires salts { length salts.now ≡ 8 }
        ensures { result ≡ names_log self.now frames salts.now }
    {
        u64::from(number_at(&self.blocks, FRAMES_AT)) == frames
            && self.blocks.holds(SALTS_AT, salts)
    }
}
