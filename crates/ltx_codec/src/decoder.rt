ghost use Rattle.std.specs.Prelude.{◌≡◌, ◌≢◌, ◌+◌, ◌<◌, ◌≤◌, ℕ, List, [], true, false, Err, vec_capacity, IfOk, IfErr, IsOk};

use crate::fault::LtxFault;
use crate::header::Header;
use crate::seen::Seen;
use lf_base::NoMemory;
use page_checksum::FIRST_REGISTER;
use std::alloc::Global;

/// The bytes of a header.
pub(crate) const HEADER: usize = 100;

/// The header before one was read.
const NO_HEADER: Header = Header {
    page_size: 0,
    commit: 0,
    min: 0,
    max: 0,
    stamp: 0,
    pre: 0,
    wal_offset: 0,
    wal_size: 0,
    wal_salt1: 0,
    wal_salt2: 0,
    node: 0,
};

/// A reader of files whose encoding comes in pieces. A piece may end anywhere: a fault that is found
/// is the earliest of the file however it goes on (`fault_stays`), and the file that is whole is
/// the one that `decode` reads (`one_reading`).
#[derive(Drop)]
pub struct Decoder {
    pub(crate) limit: u32,
    /// The part of the encoding that comes: the header, a page with its number, or the trailer.
    pub(crate) held: Vec<u8>,
    /// The part is whole and was told.
    pub(crate) told: bool,
    /// The header is whole.
    pub(crate) in_block: bool,
    pub(crate) header: Header,
    /// The page number before, 0 before the first.
    pub(crate) number: u32,
    /// In a snapshot the XOR of the sums of the pages.
    pub(crate) sums: u64,
    /// The checksum's register after the parts before.
    pub(crate) register: u64,
    /// The sum after the transactions of the last file.
    pub(crate) post: u64,
    pub(crate) fault: Option<LtxFault>,
    ghost sized: { in_block ≡ true → 0 < header.page_size },
    ghost room: { (100 ≤ vec_capacity held) × (limit + 4 ≤ vec_capacity held) × (header.page_size ≤ limit) },
}

impl Decoder {
    ghost use Rattle.ltx_codec.specs.Decoding.{HasFed, HasFailed, FeedGives, KeepsShown, header_shown, page_shown, post_shown, page_limit_of};

    /// Reserves room for a page of `page_limit` bytes. A file of larger pages is refused by
    /// `PageSize`. No later call takes memory.
    pub fn new(alloc: Global, page_limit: u32) -> Result<Decoder, NoMemory>
        ensures { IfOk result (λ decoder. HasFed decoder page_limit []) }
    {
        let room = (page_limit as usize + 4).max(HEADER);
        Ok(Decoder {
            limit: page_limit,
            held: Vec::with_capacity(alloc, room)?,
            told: false,
            in_block: false,
            header: NO_HEADER,
            number: 0,
            sums: 0,
            register: FIRST_REGISTER,
            post: 0,
            fault: None,
        })
    }

    /// Begins again: the decoder is as new, also after a fault, and its page limit stays.
    pub fn restart(&mut self)
        ensures fed { HasFed self.new (page_limit_of self.old) [] }
        ensures same_limit { page_limit_of self.new ≡ page_limit_of self.old }
    {
        self.held.clear();
        self.told = false;
        self.in_block = false;
        self.fault = None;
    }

    /// The header that was last seen.
    pub fn header(&self) -> Header
        ensures { result ≡ header_shown self.now }
    {
        self.header
    }

    /// The page that was last seen, until the next piece.
    pub fn page(&self) -> &[u8]
        ensures { result.now ≡ page_shown self.now }
    {
        let start = self.held.len().min(4);
        let (_, page) = self.held.as_slice().split_at(start);
        page
    }

    /// The sum of the database after the file that was last seen whole.
    pub fn post(&self) -> u64
        ensures { result ≡ post_shown self.now }
    {
        self.post
    }

    /// Takes a piece of the encoding, up to the end of a part. A fault is answered with the piece in
    /// which it stands, behind the parts that end before it, and again at each later call.
    pub fn feed(&mut self, piece: &[u8]) -> Result<Seen, LtxFault>
        ensures gives { (limit : ℕ) (encoding : List ℕ) → HasFed self.old limit encoding → FeedGives self.new limit encoding piece.now result }
        ensures shows { KeepsShown self.old self.new result }
        ensures fails { IfErr result (HasFailed self.new) }
        ensures again { (f : LtxFault) → HasFailed self.old f → result ≡ Err f }
        ensures same_limit { page_limit_of self.new ≡ page_limit_of self.old }
    {
        if let Some(fault) = self.fault {
            return Err(fault);
        }
        self.begin_part();
        match self.feed_part(piece) {
            Ok(seen) => Ok(seen),
            Err(fault) => {
                self.fault = Some(fault);
                Err(fault)
            }
        }
    }

    /// Drops a part that was told.
    fn begin_part(&mut self)
        ensures fed { (limit : ℕ) (encoding : List ℕ) → HasFed self.old limit encoding → HasFed self.new limit encoding }
        ensures untold { self.new.told ≡ false }
        ensures same { (self.new.header ≡ self.old.header) × (self.new.post ≡ self.old.post) × (self.new.limit ≡ self.old.limit) }
    {
        if !self.told {
            return;
        }
        self.held.clear();
        self.told = false;
    }

    fn feed_part(&mut self, piece: &[u8]) -> Result<Seen, LtxFault>
        requires { self.old.told ≡ false }
        ensures gives { (limit : ℕ) (encoding : List ℕ) → HasFed self.old limit encoding → FeedGives self.new limit encoding piece.now result }
        ensures shows { KeepsShown self.old self.new result }
        ensures same_limit { self.new.limit ≡ self.old.limit }
    {
        if self.in_block {
            self.feed_block(piece)
        } else {
            self.feed_header(piece)
        }
    }

    /// Says whether the encoding may end here: `Short` where a file is begun and not whole.
    pub fn finish(&self) -> Result<(), LtxFault>
        ensures whole { (limit : ℕ) → HasFed self.now limit [] → IsOk result }
        ensures short { (limit : ℕ) (encoding : List ℕ) → HasFed self.now limit encoding → encoding ≢ [] → result ≡ Err LtxFault.Short }
        ensures again { (f : LtxFault) → HasFailed self.now f → result ≡ Err f }
    {
        if let Some(fault) = self.fault {
            return Err(fault);
        }
        if self.in_block || !self.told && self.held.len() > 0 {
            return Err(LtxFault::Short);
        }
        Ok(())
    }
}
