//! The decoder in the trailer.
ghost use Rattle.std.specs.Prelude.{◌≡◌, ◌+◌, ◌<◌, ◌≤◌, ◌↔◌, ℕ, List, ◌++◌, length, take, true, false, IsTrue, OnOk, IfErr};
ghost use Rattle.lf_sqlite_pages.specs.Change.{PageChange};
ghost use Rattle.lf_base.specs.Endian.{be64_at};
ghost use Rattle.ltx_codec.specs.Format.{sealed as seal_of};
ghost use Rattle.page_checksum.specs.Sums.{flagged};
ghost use Rattle.ltx_codec.specs.Places.{IsWrongPost};
ghost use Rattle.ltx_codec.specs.Block.{IsRead};
ghost use Rattle.ltx_codec.specs.Decoding.{FeedGives, KeepsShown};
ghost use Rattle.ltx_codec.specs.steps.Feeding.{HasNumber, HasRightSums, BreaksSums};

use crate::decoder::Decoder;
use crate::decoder_header::fill;
use crate::fault::LtxFault;
use crate::header::Header;
use crate::rules::is_flagged;
use crate::seen::Seen;
use lf_base::be64_at;
use page_checksum::{CHECKSUM_FLAG, crc_feed};

/// The bytes of the number that ends the pages and of the two sums.
const TRAILER: usize = 20;

/// The checksum that a register stands for, with bit 63.
pub fn sealed(register: u64) -> u64
    ensures { result ≡ seal_of register }
{
    (register ^ u64::MAX) | CHECKSUM_FLAG
}

/// Whether the sum after the transactions breaks a rule, where this is the XOR of the pages' sums.
fn is_wrong_post(header: &Header, sums: u64, post: u64) -> bool
    ensures { IsTrue result ↔ IsWrongPost header.now (flagged sums) post }
{
    if !is_flagged(post) || header.commit == 0 && post != CHECKSUM_FLAG {
        return true;
    }
    header.min == 1 && post != sums | CHECKSUM_FLAG
}

/// Checks the sums that are there behind the four bytes that end the pages.
fn check_sums(header: &Header, sums: u64, register: u64, held: &[u8]) -> Result<(), LtxFault>
    ensures ok { OnOk result (HasRightSums header.now sums register held.now) }
    ensures fault { IfErr result (BreaksSums header.now sums register held.now) }
{
    if held.len() < 12 {
        return Ok(());
    }
    if is_wrong_post(header, sums, be64_at(held, 4)) {
        return Err(LtxFault::PostSum);
    }
    if held.len() < TRAILER {
        return Ok(());
    }
    let (summed, _) = held.split_at(12);
    let want = sealed(crc_feed(register, summed));
    let got = be64_at(held, 12);
    if want != got {
        return Err(LtxFault::FileSum { want, got });
    }
    Ok(())
}

impl Decoder {
    /// Takes a piece of the trailer, behind the first bytes of the piece.
    pub(crate) fn feed_trailer(&mut self, first: usize, piece: &[u8]) -> Result<Seen, LtxFault>
        requires untold { self.old.told ≡ false }
        requires within { first ≤ length piece.now }
        ensures gives { (limit : ℕ) (encoding : List ℕ) (change : PageChange) → HasNumber self.old limit (encoding ++ take first piece.now) change 0
            → IsRead encoding change (length change.pages) → length self.old.held.items ≤ 20 → length self.old.held.items < first + 20
            → FeedGives self.new limit encoding piece.now result }
        ensures shows { KeepsShown self.old self.new result }
        ensures same { (self.new.fault ≡ self.old.fault) × (self.new.limit ≡ self.old.limit) }
    {
        let (_, rest) = piece.split_at(first);
        let used = first + fill(&mut self.held, TRAILER, rest);
        let held = self.held.as_slice();
        if let Err(fault) = check_sums(&self.header, self.sums, self.register, held) {
            return Err(fault);
        }
        if held.len() < TRAILER {
            return Ok(Seen::More);
        }
        self.end_file();
        Ok(Seen::Whole { used })
    }

    /// The file is whole, and another may begin.
    fn end_file(&mut self)
        requires { 20 ≤ length self.old.held.items }
        ensures post { self.new.post ≡ be64_at 4 self.old.held.items }
        ensures told { (self.new.told ≡ true) × (self.new.in_block ≡ false) }
        ensures same { (self.new.limit ≡ self.old.limit) × (self.new.fault ≡ self.old.fault) × (self.new.header ≡ self.old.header) }
    {
        self.post = be64_at(self.held.as_slice(), 4);
        self.told = true;
        self.in_block = false;
    }
}
