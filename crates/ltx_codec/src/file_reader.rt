//! Files whose encodings come in pieces, one after another.
ghost use Rattle.std.specs.Prelude.{◌≡◌, ◌↔◌, false, List, ℕ, [], None, Err, IsTrue, IfOk, IfErr, OnOk};
ghost use Rattle.ltx_codec.specs.Places.{IsEarliest};
ghost use Rattle.ltx_codec.specs.WholePages.{HasTaken, IsBetween, IsTaking};

use crate::decoder::Decoder;
use crate::fault::LtxFault;
use crate::file::Ltx;
use crate::seen::Seen;
use crate::whole_pages::{no_pages, read_part};
use lf_base::NoMemory;
use lf_sqlite_pages::Change;
use std::alloc::Global;
use std::mem;

/// The size of SQLite's largest page, in bytes.
const LARGEST_PAGE: u32 = 65_536;

/// A reader of files that stand one after another in an encoding that comes in pieces. It holds the
/// pages so far of the file that is begun, and of the encoding only the part that is not whole yet.
#[derive(Drop)]
pub struct FileReader {
    alloc: Global,
    pub(crate) decoder: Decoder,
    /// The pages so far of the file that is begun.
    pub(crate) change: Change,
    pub(crate) fault: Option<LtxFault>,
    ghost begun: { fault ≡ None → IsTaking decoder change },
}

impl FileReader {
    ghost use Rattle.ltx_codec.specs.Decoding.{header_shown, post_shown};
    ghost use Rattle.ltx_codec.specs.Reading.{HasBegun, HasStopped, Reads};
    ghost use Rattle.ltx_codec.specs.steps.ReadingParts.{ReadsPart, CountsSome};

    pub fn new(alloc: Global) -> Result<FileReader, NoMemory>
        ensures { IfOk result (λ reader. HasBegun reader []) }
    {
        Ok(FileReader {
            alloc,
            decoder: Decoder::new(alloc, LARGEST_PAGE)?,
            change: no_pages(alloc),
            fault: None,
        })
    }

    /// Takes a piece, up to the end of a file: the file, and how many bytes of the piece were
    /// taken. A fault is answered with the piece in which it stands, and again at each later call.
    pub fn feed(&mut self, piece: &[u8]) -> Result<Option<(Ltx, usize)>, LtxFault>
        ensures gives { (encoding : List ℕ) → HasBegun self.old encoding → Reads self.new encoding piece.now result }
        ensures fails { IfErr result (HasStopped self.new) }
        ensures again { (f : LtxFault) → HasStopped self.old f → result ≡ Err f }
    {
        if let Some(fault) = self.fault {
            return Err(fault);
        }
        let mut taken = 0;
        loop {
            let (_, rest) = piece.split_at(taken);
            match self.take_part(rest)? {
                Seen::More => return Ok(None),
                Seen::Header { used } | Seen::Page { used, .. } => taken += used,
                Seen::Whole { used } => return Ok(Some((self.take_file(), taken + used))),
            }
        }
    }

    /// Takes a piece up to the end of a part. A fault is stored.
    fn take_part(&mut self, piece: &[u8]) -> Result<Seen, LtxFault>
        requires { self.old.fault ≡ None }
        ensures gives { (encoding : List ℕ) → HasTaken self.old.decoder self.old.change encoding → ReadsPart self.new.decoder self.new.change encoding piece.now result }
        ensures some { IfOk result (CountsSome piece.now) }
        ensures sound { OnOk result (self.new.fault ≡ None) }
        ensures fails { IfErr result (HasStopped self.new) }
    {
        let seen = read_part(self.alloc, &mut self.decoder, &mut self.change, piece);
        if let Err(fault) = seen {
            self.fault = Some(fault);
        }
        seen
    }

    /// The file that ended, and no pages are left.
    fn take_file(&mut self) -> Ltx
        requires { IsBetween self.old.decoder }
        ensures file { result ≡ record { header = header_shown self.old.decoder; change = self.old.change; post = post_shown self.old.decoder } }
        ensures same { (self.new.decoder ≡ self.old.decoder) × (self.new.fault ≡ self.old.fault) }
    {
        let change = mem::replace(&mut self.change, no_pages(self.alloc));
        Ltx {
            header: self.decoder.header(),
            change,
            post: self.decoder.post(),
        }
    }

    /// Whether no file is begun. Where one is, an encoding that ends here is short.
    pub fn is_between(&self) -> bool
        ensures between { (encoding : List ℕ) → HasBegun self.now encoding → IsTrue result ↔ (encoding ≡ []) }
        ensures short { (encoding : List ℕ) → HasBegun self.now encoding → IsEarliest encoding LtxFault.Short }
        ensures stopped { (f : LtxFault) → HasStopped self.now f → result ≡ false }
    {
        self.fault.is_none() && self.decoder.finish().is_ok()
    }
}
