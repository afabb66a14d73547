//! The decoder in the page block.
ghost use Rattle.std.specs.Prelude.{◌≡◌, ◌≢◌, ◌+◌, ◌<◌, ◌≤◌, ℕ, List, ◌++◌, length, take, drop, bit_xor, true, false, Ok};
ghost use Rattle.page_checksum.specs.Crc.{after_bytes};
ghost use Rattle.page_checksum.specs.Sums.{page_sum_of};
ghost use Rattle.lf_sqlite_pages.specs.Change.{PageChange};
ghost use Rattle.ltx_codec.specs.Block.{IsRead};
ghost use Rattle.ltx_codec.specs.Decoding.{HasFed, FeedGives, KeepsShown};
ghost use Rattle.ltx_codec.specs.steps.Feeding.{HasNumber};

use crate::decoder::Decoder;
use crate::decoder_header::fill;
use crate::fault::LtxFault;
use crate::numbering::check_number;
use crate::seen::Seen;
use lf_base::be32_at;
use page_checksum::{crc_feed, page_sum};

/// The bytes of a page number.
const NUMBER: usize = 4;

impl Decoder {
    /// Takes a piece of the page block or the trailer.
    pub(crate) fn feed_block(&mut self, piece: &[u8]) -> Result<Seen, LtxFault>
        requires stage { self.old.in_block ≡ true }
        requires untold { self.old.told ≡ false }
        ensures gives { (limit : ℕ) (encoding : List ℕ) → HasFed self.old limit encoding → FeedGives self.new limit encoding piece.now result }
        ensures shows { KeepsShown self.old self.new result }
        ensures same { (self.new.fault ≡ self.old.fault) × (self.new.limit ≡ self.old.limit) }
    {
        let first = fill(&mut self.held, NUMBER, piece);
        if self.held.len() < NUMBER {
            return Ok(Seen::More);
        }
        let number = be32_at(self.held.as_slice(), 0);
        if let Err(fault) = check_number(&self.header, self.number, number) {
            return Err(fault);
        }
        if number == 0 {
            return self.feed_trailer(first, piece);
        }
        Ok(self.feed_page(number, first, piece))
    }

    /// Takes a piece of a page, behind its number and the first bytes of the piece.
    fn feed_page(&mut self, number: u32, first: usize, piece: &[u8]) -> Seen
        requires untold { self.old.told ≡ false }
        requires more { number ≢ 0 }
        requires within { first ≤ length piece.now }
        ensures gives { (limit : ℕ) (encoding : List ℕ) (change : PageChange) → HasNumber self.old limit (encoding ++ take first piece.now) change number
            → IsRead encoding change (length change.pages) → length self.old.held.items ≤ 4 + self.old.header.page_size
            → length self.old.held.items < first + (4 + self.old.header.page_size) → FeedGives self.new limit encoding piece.now (Ok result) }
        ensures shows { (self.new.header ≡ self.old.header) × (self.new.post ≡ self.old.post) }
        ensures same { (self.new.fault ≡ self.old.fault) × (self.new.limit ≡ self.old.limit) }
    {
        let (_, rest) = piece.split_at(first);
        let part = NUMBER + self.header.page_size as usize;
        let used = first + fill(&mut self.held, part, rest);
        if self.held.len() < part {
            return Seen::More;
        }
        self.take_page(number);
        Seen::Page { used, number }
    }

    /// The page is whole. Only a snapshot's sum is that of its pages.
    fn take_page(&mut self, number: u32)
        requires { 4 ≤ length self.old.held.items }
        ensures register { self.new.register ≡ after_bytes self.old.register self.old.held.items }
        ensures sums { self.old.header.min ≡ 1 → self.new.sums ≡ bit_xor self.old.sums (page_sum_of number (drop 4 self.old.held.items)) }
        ensures number { (self.new.number ≡ number) × (self.new.told ≡ true) }
        ensures same { (self.new.limit ≡ self.old.limit) × (self.new.fault ≡ self.old.fault) × (self.new.in_block ≡ self.old.in_block) }
        ensures shown { (self.new.header ≡ self.old.header) × (self.new.held ≡ self.old.held) × (self.new.post ≡ self.old.post) }
    {
        let held = self.held.as_slice();
        let (_, page) = held.split_at(NUMBER);
        self.register = crc_feed(self.register, held);
        if self.header.min == 1 {
            self.sums ^= page_sum(number, page);
        }
        self.number = number;
        self.told = true;
    }
}
