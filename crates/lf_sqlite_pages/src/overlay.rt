ghost use Rattle.std.specs.Prelude.{◌≡◌, ◌↔◌, IsTrue, length, IfOk, OnOk, OnErr};
ghost use Rattle.std.specs.Option.{option_copied};
ghost use Rattle.std.specs.FinMap as map;
ghost use Rattle.lf_sqlite_pages.specs.Overlay.{HasRoom, empty_overlay, reserved, stands_whole, with_page_at, without_page, cut_to, cleared};

use crate::page::Page;
use crate::pages::fit;
use crate::table::{self, Table};
use lf_base::NoMemory;
use std::alloc::Global;
use std::collections::HashMap;
use std::marker::Model;

/// Pages kept over those of a database, by number. Room is reserved beforehand, and putting a page
/// into it takes no memory.
#[derive(Drop)]
pub struct Overlay {
    pages: Table,
    spare: Vec<Page>,
    size: u32,
}

impl Model for Overlay {
    ghost use Rattle.lf_sqlite_pages.specs.Overlay.{PageOverlay, overlay_code};

    ghost Value = { PageOverlay };

    ghost coded = { overlay_code };

    ghost use Rattle.lf_sqlite_pages.specs.OverlayParts.{overlay_of, IsKept};

    ghost view = { overlay_of };

    ghost invariant = { IsKept };
}

impl Overlay {
    /// An overlay without pages and without room.
    pub fn new(alloc: Global) -> Overlay
        ensures { result ≡ empty_overlay }
    {
        Overlay {
            pages: HashMap::new(alloc),
            spare: Vec::new(alloc),
            size: 0,
        }
    }

    /// Reserves room for at least `pages` more pages of `page_size` bytes. It alone takes memory;
    /// after want of memory nothing changed.
    pub fn reserve(&mut self, pages: u32, page_size: u32) -> Result<(), NoMemory>
        ensures ok { OnOk result (self.new ≡ reserved self.old pages page_size) }
        ensures err { OnErr result (self.new ≡ self.old) }
    {
        let wanted = pages as usize;
        let count = if self.size == page_size {
            self.spare.len().max(wanted)
        } else {
            wanted
        };
        table::reserve(&mut self.pages, count)?;
        fit(
            &mut self.spare,
            self.size as usize,
            page_size as usize,
            count,
        )?;
        self.size = page_size;
        Ok(())
    }

    /// The bytes of page `n`, if it is kept here.
    pub fn get(&self, n: u32) -> Option<&[u8]>
        ensures { option_copied result ≡ map.get self.now.pages n }
    {
        table::page_at(&self.pages, n)
    }

    /// The size of the pages that room was last reserved for, 0 where none was.
    pub fn page_size(&self) -> u32
        ensures { result ≡ self.now.size }
    {
        self.size
    }

    /// The numbers of the pages that are kept here, in ascending order.
    pub fn numbers(&self) -> Result<Vec<u32>, NoMemory>
        ensures { IfOk result (λ numbers. numbers.items ≡ map.keys self.now.pages) }
    {
        table::numbers(*self.spare.allocator(), &self.pages)
    }

    /// How many pages are kept here.
    pub fn len(&self) -> usize
        ensures { result ≡ map.len self.now.pages }
    {
        table::len(&self.pages)
    }

    /// Whether none is kept here.
    pub fn is_empty(&self) -> bool
        ensures { IsTrue result ↔ (map.len self.now.pages ≡ 0) }
    {
        table::len(&self.pages) == 0
    }

    /// Whether page `n` can be put without memory.
    pub fn has_room(&self, n: u32) -> bool
        ensures { IsTrue result ↔ HasRoom self.now n }
    {
        self.stands_whole(n) || !self.spare.is_empty()
    }

    fn stands_whole(&self, n: u32) -> bool
        ensures { result ≡ stands_whole self.now n }
    {
        match self.get(n) {
            Some(page) => page.len() == self.size as usize,
            None => false,
        }
    }

    /// Keeps a copy of page `n`, over the one that stands there or in the room that was reserved.
    pub fn put(&mut self, n: u32, page: &[u8])
        requires whole { length page.now ≡ self.old.size }
        requires room { HasRoom self.old n }
        ensures { self.new ≡ with_page_at self.old n page.now }
    {
        if self.stands_whole(n) {
            table::write_over(&mut self.pages, n, page);
        } else {
            let mut fresh = self.spare.pop().unwrap();
            fresh.overwrite(page);
            table::put(&mut self.pages, n, fresh);
        }
    }

    /// Drops page `n`, where it is kept. The room stays, and does not grow.
    pub fn remove(&mut self, n: u32)
        ensures { self.new ≡ without_page self.old n }
    {
        table::remove(&mut self.pages, n);
    }

    /// Drops the pages past `pages`.
    pub fn cut(&mut self, pages: u32)
        ensures { self.new ≡ cut_to self.old pages }
    {
        table::cut(&mut self.pages, pages);
    }

    /// Drops all pages. The room stays.
    pub fn clear(&mut self)
        ensures { self.new ≡ cleared self.old }
    {
        self.pages.clear();
    }
}
