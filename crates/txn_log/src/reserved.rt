//! What is reserved for a file that a source gives.
ghost use Rattle.std.specs.Prelude.{◌≡◌, ◌+◌, ◌≤◌, length, OnOk};

use crate::file_decoder::FileDecoder;
use lf_base::NoMemory;
use page_checksum::Sums;
use std::alloc::Global;
use std::mem;

/// What a file that a source gives needs beside the page that is handed in: a decoder, and room for
/// the sums of the pages after it.
#[derive(Drop)]
pub struct Reserved {
    pub reader: FileDecoder,
    pub sums: Sums,
    /// How many pages there is room for.
    pub pages: u32,
    ghost room: { pages ≤ length sums.sums + sums.spare },
}

impl Reserved {
    /// A decoder, and no room.
    pub fn new(alloc: Global) -> Result<Reserved, NoMemory> {
        let reader = FileDecoder::new(alloc)?;
        Ok(Reserved {
            reader,
            sums: Sums::new(alloc),
            pages: 0,
        })
    }

    /// Makes room for so many pages.
    pub fn grow(&mut self, pages: u32) -> Result<(), NoMemory>
        ensures { OnOk result (pages ≤ self.new.pages) }
    {
        if pages <= self.pages {
            return Ok(());
        }
        match self.sums.reserve(pages) {
            Ok(()) => {
                self.pages = pages;
                Ok(())
            }
            Err(failed) => Err(failed),
        }
    }

    /// Gives the sums in exchange for others. There is no room then.
    pub fn exchange(&mut self, sums: &mut Sums)
        ensures { sums.new ≡ self.old.sums }
    {
        self.pages = 0;
        mem::swap(&mut self.sums, sums);
    }
}
