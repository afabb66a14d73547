//! The decoder before the header is whole.
ghost use Rattle.std.specs.Prelude.{◌≡◌, ◌+◌, ◌-◌, ◌<◌, ◌≤◌, ◌++◌, ℕ, List, length, take, min, vec_len, vec_capacity, true, false};
ghost use Rattle.page_checksum.specs.Crc.{after_bytes, all_ones};
ghost use Rattle.ltx_codec.specs.Fields.{stated_page_size, header_in};
ghost use Rattle.ltx_codec.specs.Decoding.{HasFed, FeedGives, KeepsShown};

use crate::decoder::{Decoder, HEADER};
use crate::fault::LtxFault;
use crate::fields::header_at;
use crate::head_rules::check_within;
use crate::seen::Seen;
use page_checksum::{FIRST_REGISTER, crc_feed};

/// Appends bytes of the piece until there are `target`, and tells how many.
pub fn fill(held: &mut Vec<u8>, target: usize, piece: &[u8]) -> usize
    requires { target ≤ vec_capacity held.old }
    ensures count { result ≡ min (target - vec_len held.old) (length piece.now) }
    ensures items { held.new.items ≡ held.old.items ++ take result piece.now }
    ensures len { vec_len held.new ≡ vec_len held.old + result }
    ensures size { vec_len held.new ≡ length held.new.items }
    ensures capacity { vec_capacity held.old ≤ vec_capacity held.new }
{
    let count = target.saturating_sub(held.len()).min(piece.len());
    let (front, _) = piece.split_at(count);
    held.extend_from_slice(front).unwrap();
    count
}

impl Decoder {
    /// Takes a piece of the header.
    pub(crate) fn feed_header(&mut self, piece: &[u8]) -> Result<Seen, LtxFault>
        requires stage { self.old.in_block ≡ false }
        requires untold { self.old.told ≡ false }
        ensures gives { (limit : ℕ) (encoding : List ℕ) → HasFed self.old limit encoding → FeedGives self.new limit encoding piece.now result }
        ensures shows { KeepsShown self.old self.new result }
        ensures same { (self.new.fault ≡ self.old.fault) × (self.new.limit ≡ self.old.limit) }
    {
        let used = fill(&mut self.held, HEADER, piece);
        if let Err(fault) = check_within(self.held.as_slice(), self.limit) {
            return Err(fault);
        }
        if self.held.len() < HEADER {
            return Ok(Seen::More);
        }
        self.start_block();
        Ok(Seen::Header { used })
    }

    /// The header is whole, and pages come.
    fn start_block(&mut self)
        requires whole { 100 ≤ length self.old.held.items }
        requires within { stated_page_size self.old.held.items ≤ self.old.limit }
        requires sized { 0 < stated_page_size self.old.held.items }
        ensures header { self.new.header ≡ header_in self.old.held.items }
        ensures register { self.new.register ≡ after_bytes all_ones self.old.held.items }
        ensures begins { (self.new.number ≡ 0) × (self.new.sums ≡ 0) × (self.new.in_block ≡ true) × (self.new.told ≡ true) }
        ensures held { self.new.held ≡ self.old.held }
        ensures same { (self.new.limit ≡ self.old.limit) × (self.new.fault ≡ self.old.fault) × (self.new.post ≡ self.old.post) }
    {
        let bytes = self.held.as_slice();
        self.header = header_at(bytes);
        self.register = crc_feed(FIRST_REGISTER, bytes);
        self.number = 0;
        self.sums = 0;
        self.in_block = true;
        self.told = true;
    }
}
