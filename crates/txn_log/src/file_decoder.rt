//! A decoder for files of any page size.
ghost use Rattle.std.specs.Prelude.{◌≡◌, ℕ, List, [], IfOk};
ghost use Rattle.ltx_codec.specs.Decoding.{HasFed, FeedGives, page_limit_of};
ghost use Rattle.ltx_codec.specs.WholePages.{largest_page};

use lf_base::NoMemory;
use ltx_codec::{Decoder, LtxFault, Seen};
use std::alloc::Global;

/// The size of SQLite's largest page, in bytes.
const LARGEST_PAGE: u32 = 65_536;

/// A decoder that takes pages of each size that SQLite has.
#[derive(Drop)]
pub struct FileDecoder {
    pub decoder: Decoder,
    ghost widest: { page_limit_of decoder ≡ largest_page },
}

impl FileDecoder {
    pub fn new(alloc: Global) -> Result<FileDecoder, NoMemory>
        ensures { IfOk result (λ reader. HasFed reader.decoder largest_page []) }
    {
        let decoder = Decoder::new(alloc, LARGEST_PAGE)?;
        Ok(FileDecoder { decoder })
    }

    /// Begins a file, also after a fault.
    pub fn restart(&mut self)
        ensures { HasFed self.new.decoder largest_page [] }
    {
        self.decoder.restart();
    }

    /// Takes a piece of the encoding, up to the end of a part.
    pub fn feed(&mut self, piece: &[u8]) -> Result<Seen, LtxFault>
        ensures { (encoding : List ℕ) → HasFed self.old.decoder largest_page encoding → FeedGives self.new.decoder largest_page encoding piece.now result }
    {
        self.decoder.feed(piece)
    }
}
