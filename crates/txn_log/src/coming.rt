//! A transaction file whose encoding comes in pieces, up to its end.
ghost use Rattle.std.specs.Prelude.{◌≡◌, ◌<◌, ◌≤◌, ◌+◌, ℕ, List, [], length, OnOk, IfOk};
ghost use Rattle.lf_sqlite_pages.specs.Change.{PageChange};
ghost use Rattle.ltx_codec.specs.Decoding.{header_shown, page_shown};
ghost use Rattle.ltx_codec.specs.Fields.{AreBytes};
ghost use Rattle.txn_log.specs.Coming.{used_in, part_of as part, ends_file, HasCome, IsOpen, TakesAll, ReadsEncoding, CountsSource};

use crate::file_decoder::FileDecoder;
use crate::outline::{Outline, SourceFault};
use lf_base::Source;
use ltx_codec::{Header, LtxFault, Seen};

/// What some bytes of a file ended.
#[derive(Clone, Copy, Debug)]
pub enum Part {
    Header,
    Page { number: u32 },
    /// Neither of them.
    More,
}

/// A file that comes.
#[derive(Drop)]
pub struct Coming {
    pub reader: FileDecoder,
    /// The file was whole with the last byte taken.
    pub whole: bool,
    /// How many bytes were taken.
    pub taken: u64,
}

/// How many bytes of a piece the decoder took.
fn used_by(seen: Seen, len: usize) -> usize
    ensures { result ≡ used_in seen len }
{
    match seen {
        Seen::More => len,
        Seen::Header { used } | Seen::Page { used, .. } | Seen::Whole { used } => used,
    }
}

/// Whether the file is whole.
fn is_end(seen: Seen) -> bool
    ensures { result ≡ ends_file seen }
{
    matches!(seen, Seen::Whole { .. })
}

/// The part that ended.
fn ended_part(seen: Seen) -> Part
    ensures { result ≡ part seen }
{
    match seen {
        Seen::Header { .. } => Part::Header,
        Seen::Page { number, .. } => Part::Page { number },
        Seen::More | Seen::Whole { .. } => Part::More,
    }
}

/// The numbers in a piece are bytes.
pub fn are_bytes(piece: &[u8])
    ensures { AreBytes piece.now }
{}

impl Coming {
    ghost use Rattle.txn_log.specs.Coming.{HasCome, IsOpen, Comes, Ends};

    /// Begins a file.
    pub fn new(reader: FileDecoder) -> Coming
        ensures { (change : PageChange) → HasCome result [] change }
    {
        let mut reader = reader;
        reader.restart();
        Coming {
            reader,
            whole: false,
            taken: 0,
        }
    }

    /// Takes some bytes of a piece, up to the end of a part, and tells how many. Bytes behind a file
    /// are a fault.
    pub fn step(&mut self, piece: &[u8]) -> Result<(Part, usize), LtxFault>
        requires open_ { IsOpen self.old }
        requires some { 0 < length piece.now }
        requires short { length piece.now ≤ 65536 }
        ensures comes { (encoding : List ℕ) (change : PageChange) → HasCome self.old encoding change → Comes self.new encoding change piece.now result }
        ensures more { IfOk result (λ came. (1 ≤ came.1) × (came.1 ≤ length piece.now) × (self.new.taken ≡ self.old.taken + came.1)) }
        ensures within { OnOk result (self.old.taken < 4294967296) }
    {
        if self.whole {
            return Err(LtxFault::Tail);
        }
        are_bytes(piece);
        match self.reader.feed(piece) {
            Ok(seen) => {
                let used = used_by(seen, piece.len());
                self.taken += used as u64;
                self.whole = is_end(seen);
                Ok((ended_part(seen), used))
            }
            Err(fault) => Err(fault),
        }
    }

    /// The header that was come to.
    pub fn header(&self) -> Header
        ensures { result ≡ header_shown self.now.reader.decoder }
    {
        self.reader.decoder.header()
    }

    /// The page that was come to.
    pub fn page(&self) -> &[u8]
        ensures { result.now ≡ page_shown self.now.reader.decoder }
    {
        self.reader.decoder.page()
    }

    /// What the file is, once all its bytes were taken.
    pub fn finish(&self) -> Result<Outline, LtxFault>
        ensures { (encoding : List ℕ) (change : PageChange) → HasCome self.now encoding change → Ends encoding change result }
    {
        if !self.whole {
            return Err(LtxFault::Short);
        }
        Ok(Outline {
            header: self.reader.decoder.header(),
            post: self.reader.decoder.post(),
        })
    }
}

impl Coming {
    /// Takes a whole piece.
    fn take_all(&mut self, piece: &[u8]) -> Result<(), LtxFault>
        requires open_ { IsOpen self.old }
        requires short { length piece.now ≤ 65536 }
        ensures takes { (encoding : List ℕ) (change : PageChange) → HasCome self.old encoding change → TakesAll self.new encoding piece.now result }
        ensures count { OnOk result (self.new.taken ≡ self.old.taken + length piece.now) }
        ensures within { OnOk result (0 < length piece.now → self.old.taken < 4294967296) }
    {
        let mut rest = piece;
        while rest.len() > 0 {
            match self.step(rest) {
                Ok((_, used)) => {
                    let (_, others) = rest.split_at(used);
                    rest = others;
                }
                Err(fault) => return Err(fault),
            }
        }
        Ok(())
    }
}

/// Reads a source to its end, piece by piece, or to the fault that stands earliest. It takes no
/// memory: a piece goes into `page`, and a part of the file into the decoder.
pub fn read_source<S: Source>(
    source: &mut S,
    coming: &mut Coming,
    page: &mut [u8],
) -> Result<Outline, SourceFault>
    requires begun { (change : PageChange) × HasCome coming.old [] change }
    requires room { length page.old ≡ 65536 }
    ensures reads { ReadsEncoding (S.left source.old) (S.left source.new) result }
    ensures cause { CountsSource (S.faults source.old) (S.faults source.new) result }
{
    'pieces: loop {
        let count = match source.read(page) {
            Ok(count) => count,
            Err(_) => return Err(SourceFault::Source),
        };
        if count == 0 {
            break;
        }
        let (piece, _) = page.split_at(count);
        match coming.take_all(piece) {
            Ok(()) => {}
            Err(fault) => return Err(SourceFault::Ltx(fault)),
        }
    }
    match coming.finish() {
        Ok(outline) => Ok(outline),
        Err(fault) => Err(SourceFault::Ltx(fault)),
    }
}
