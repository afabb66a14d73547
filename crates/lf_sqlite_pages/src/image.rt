ghost use Rattle.std.specs.Prelude.{◌↔◌, IsTrue, ◌≡◌, ◌≤◌, length, Some, IfOk, OnOk, OnErr};
ghost use Rattle.lf_sqlite_pages.specs.Image.{IsImage, empty_image, page_at};
ghost use Rattle.lf_sqlite_pages.specs.Apply.{Fits, apply};

use crate::change::Change;
use crate::page::Page;
use crate::pages::{fit, overwrite};
use crate::placing::{keep, place_all};
use lf_base::NoMemory;
use std::alloc::Global;
use std::marker::Model;

/// A database as it is at one moment: whole pages of one size, counted from 1. An image without
/// pages is the same image whatever its page size.
#[derive(Debug, Drop)]
pub struct Image {
    page_size: u32,
    pages: Vec<Page>,
}

impl Model for Image {
    ghost use Rattle.lf_sqlite_pages.specs.Image.{DatabaseImage, IsImage};

    ghost Value = { DatabaseImage };

    ghost view = { λ i. record { page_size = i.page_size; pages = i.pages.items } };

    ghost invariant = { λ i. IsImage (record { page_size = i.page_size; pages = i.pages.items }) };
}

impl Image {
    /// The image of a database that was never written.
    pub fn empty(alloc: Global) -> Image
        ensures { result ≡ empty_image }
    {
        Image {
            page_size: 0,
            pages: Vec::new(alloc),
        }
    }

    /// Makes this the image after `change`: zeros at the lock page; else, page by page, what the
    /// change writes, else the old page, else zeros. After want of memory nothing changed.
    pub fn apply(&mut self, change: &Change) -> Result<(), NoMemory>
        requires { Fits self.old change.now }
        ensures ok { OnOk result (self.new ≡ apply self.old change.now) }
        ensures err { OnErr result (self.new ≡ self.old) }
    {
        let page_size = change.page_size();
        let commit = change.commit() as usize;
        fit(
            &mut self.pages,
            self.page_size as usize,
            page_size as usize,
            commit,
        )?;
        self.page_size = page_size;
        overwrite(&mut self.pages, change);
        Ok(())
    }

    /// The image after `change`, which is what `apply` makes. The pages of the change are moved into
    /// it, and memory is taken for pages of zeros and for the list alone.
    pub fn after(self, change: Change) -> Result<Image, NoMemory>
        requires { Fits self change }
        ensures { IfOk result (λ image. image ≡ apply self change) }
    {
        let Image {
            page_size: old_size,
            pages,
        } = self;
        let page_size = change.page_size();
        let pages = place_all(keep(pages, old_size, page_size), change)?;
        Ok(Image { page_size, pages })
    }

    /// Whether a change can be applied to this: the page sizes are equal, or no page of this stays in
    /// place.
    pub fn fits(&self, change: &Change) -> bool
        ensures { IsTrue result ↔ Fits self.now change.now }
    {
        change.fits(self.page_size, self.commit())
    }

    /// The size of each page in bytes, 0 for a database that was never written.
    pub fn page_size(&self) -> u32
        ensures { result ≡ self.now.page_size }
    {
        self.page_size
    }

    /// How many pages there are.
    pub fn commit(&self) -> u32
        ensures value { result ≡ length self.now.pages }
        ensures valid { IsImage self.now }
    {
        self.pages.len() as u32
    }

    /// The bytes of page `n`, counted from 1.
    pub fn page(&self, n: u32) -> &[u8]
        requires first { 1 ≤ n }
        requires last { n ≤ length self.now.pages }
        ensures value { page_at self.now n ≡ Some result.now }
        ensures whole { length result.now ≡ self.now.page_size }
    {
        self.pages[n as usize - 1].as_slice()
    }
}
