//! A table of page sums, from which the sum of a database is taken without reading its pages.
ghost use Rattle.std.specs.Prelude.{◌≡◌, ◌+◌, ◌≤◌, length, take, OnOk, OnErr};
ghost use Rattle.page_checksum.specs.Sums.{flagged, joined};
ghost use Rattle.page_checksum.specs.Table.{no_sums, with_room, with_pages, with_sum, sum_at};

use lf_base::NoMemory;
use std::alloc::Global;
use std::marker::Model;

/// The sum of each page of a database, counted from 1. For a page that is in no sum the caller puts
/// 0. Room is reserved beforehand, and only that takes memory: eight bytes a page.
#[derive(Drop)]
pub struct Sums {
    sums: Vec<u64>,
    room: usize,
    /// All sums taken together by XOR.
    joined: u64,
}

impl Model for Sums {
    ghost use Rattle.std.specs.Prelude.{◌-◌, length, vec_capacity};
    ghost use Rattle.page_checksum.specs.Table.{PageSums, IsTable};

    ghost Value = { PageSums };

    ghost view = { λ s. record { sums = s.sums.items; spare = s.room - length s.sums.items } };

    ghost invariant = { λ s. IsTable s.sums.items s.room (vec_capacity s.sums) s.joined };
}

impl Sums {
    /// A table of no pages, and no room.
    pub fn new(alloc: Global) -> Sums
        ensures { result ≡ no_sums }
    {
        Sums {
            sums: Vec::new(alloc),
            room: 0,
            joined: 0,
        }
    }

    /// Reserves room for at least `pages` more pages. After want of memory nothing changed.
    pub fn reserve(&mut self, pages: u32) -> Result<(), NoMemory>
        ensures ok { OnOk result (self.new ≡ with_room self.old pages) }
        ensures err { OnErr result (self.new ≡ self.old) }
    {
        let pages = pages as usize;
        if self.room - self.sums.len() < pages {
            self.sums.reserve(pages)?;
            self.room = self.sums.len() + pages;
        }
        Ok(())
    }

    /// Gives the table so many pages. The sums of new ones are 0.
    pub fn resize(&mut self, pages: u32)
        requires { pages ≤ length self.old.sums + self.old.spare }
        ensures { self.new ≡ with_pages self.old pages }
    {
        let joined = self.joined_to(pages);
        // There is room, so it is never refused.
        let _ = self.sums.resize(pages as usize, 0);
        self.joined = joined;
    }

    /// Puts the sum of page `n`.
    pub fn set(&mut self, n: u32, sum: u64)
        requires first { 1 ≤ n }
        requires last { n ≤ length self.old.sums }
        ensures { self.new ≡ with_sum self.old n sum }
    {
        let place = n as usize - 1;
        self.joined ^= self.sums[place] ^ sum;
        self.sums[place] = sum;
    }

    /// The sum of page `n`, 0 past the last page.
    pub fn get(&self, n: u32) -> u64
        requires { 1 ≤ n }
        ensures { result ≡ sum_at self.now n }
    {
        let place = n as usize - 1;
        if place < self.sums.len() {
            self.sums[place]
        } else {
            0
        }
    }

    /// The sum of the database: all sums taken together by XOR, with bit 63 set.
    pub fn total(&self) -> u64
        ensures { result ≡ flagged (joined self.now.sums) }
    {
        self.joined | FLAG
    }

    /// The sums of the first `pages` pages taken together by XOR. Only the sums past them are gone
    /// through.
    pub fn joined_to(&self, pages: u32) -> u64
        ensures { result ≡ joined (take pages self.now.sums) }
    {
        let pages = pages as usize;
        if self.sums.len() <= pages {
            return self.joined;
        }
        let (_, past) = self.sums.as_slice().split_at(pages);
        self.joined ^ joined_of(past)
    }
}

/// Sums taken together by XOR.
fn joined_of(sums: &[u64]) -> u64
    ensures { result ≡ joined sums.now }
{
    let mut joined = 0;
    for sum in sums {
        joined ^= *sum;
    }
    joined
}

/// Bit 63, which every sum carries.
const FLAG: u64 = 1 << 63;
