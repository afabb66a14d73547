ghost use Rattle.std.specs.Prelude.{◌≡◌};
ghost use Rattle.ltx_codec.specs.Faults.{name_of, number_of};
ghost use Rattle.ltx_codec.specs.declared.fault.LtxFault.TheVariants as variant;

use lf_base::NoMemory;
use thiserror::Error;

/// Why bytes are no LTX file. The fault that stands earliest in the bytes is answered.
#[derive(Clone, Copy, Debug, PartialEq, Eq, Error)]
pub enum LtxFault {
    /// The bytes end before the file does.
    #[error("the file is cut short")]
    Short,
    #[error("the magic is not LTX1")]
    Magic,
    #[error("the file is compressed")]
    Compressed,
    #[error("a flag is set that is not known")]
    UnknownFlags,
    /// It is none of SQLite's page sizes.
    #[error("the page size is not one of SQLite's")]
    PageSize,
    /// The minimum is 0, or the maximum is less than the minimum.
    #[error("the transaction numbers are out of order")]
    Txid,
    /// A file of all pages of the database would be past 2^31 bytes.
    #[error("the database is past its limit")]
    Commit,
    /// It is not 0 in a snapshot, or lacks bit 63 in another file.
    #[error("the sum before the transactions is malformed")]
    PreSum,
    /// A page number is not above the one before.
    #[error("a page number is not above the one before")]
    PageOrder,
    /// A page number is past the number of pages, or is that of the lock page, which holds no data.
    #[error("a page number is past the number of pages, or is that of the lock page")]
    PageRange,
    /// A snapshot leaves out a data page.
    #[error("a snapshot leaves out a page")]
    NotWhole,
    /// It lacks bit 63, or is not the sum of the snapshot's pages, or of no pages.
    #[error("the sum after the transactions is wrong")]
    PostSum,
    /// The sum of the file's bytes is `want`, and the file says `got`.
    #[error("the file sum is {got:016x}, and {want:016x} was computed")]
    FileSum { want: u64, got: u64 },
    /// A byte follows the trailer.
    #[error("bytes follow the file")]
    Tail,
    #[error("out of memory")]
    NoMemory,
}

impl LtxFault {
    /// The fault's number, 1 to 15 in the order of the variants.
    pub fn number(&self) -> u8
        ensures { result ≡ number_of self.now }
    {
        match self {
            LtxFault::Short => 1,
            LtxFault::Magic => 2,
            LtxFault::Compressed => 3,
            LtxFault::UnknownFlags => 4,
            LtxFault::PageSize => 5,
            LtxFault::Txid => 6,
            LtxFault::Commit => 7,
            LtxFault::PreSum => 8,
            LtxFault::PageOrder => 9,
            LtxFault::PageRange => 10,
            LtxFault::NotWhole => 11,
            LtxFault::PostSum => 12,
            LtxFault::FileSum { .. } => 13,
            LtxFault::Tail => 14,
            LtxFault::NoMemory => 15,
        }
    }

    /// The fault's name, without what it found.
    pub fn name(&self) -> &'static str
        ensures { result.now ≡ name_of self.now }
    {
        match self {
            LtxFault::Short => "Short",
            LtxFault::Magic => "Magic",
            LtxFault::Compressed => "Compressed",
            LtxFault::UnknownFlags => "UnknownFlags",
            LtxFault::PageSize => "PageSize",
            LtxFault::Txid => "Txid",
            LtxFault::Commit => "Commit",
            LtxFault::PreSum => "PreSum",
            LtxFault::PageOrder => "PageOrder",
            LtxFault::PageRange => "PageRange",
            LtxFault::NotWhole => "NotWhole",
            LtxFault::PostSum => "PostSum",
            LtxFault::FileSum { .. } => "FileSum",
            LtxFault::Tail => "Tail",
            LtxFault::NoMemory => "NoMemory",
        }
    }
}

impl From<NoMemory> for LtxFault {
    ghost from_gives = { λ _ fault. fault ≡ variant.NoMemory };

    fn from(_memory: NoMemory) -> LtxFault {
        LtxFault::NoMemory
    }
}
