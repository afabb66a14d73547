//! A transaction file as its bytes in memory, none of whose pages is copied.
ghost use Rattle.std.specs.Prelude.{◌≡◌, length, IfOk, IfErr, IfSome};
ghost use Rattle.ltx_codec.specs.Fields.{AreBytes};
ghost use Rattle.ltx_codec.specs.Format.{IsFile, IsLtx};
ghost use Rattle.ltx_codec.specs.Places.{IsRefused};
ghost use Rattle.ltx_codec.specs.Positions as position;
ghost use Rattle.snapshot.specs.Encoded.{IsEncoded};

use lf_base::{NoMemory, Pos, SliceSource};
use ltx_codec::{Header, Ltx, LtxFault, file_is_read};
use std::alloc::Global;
use std::marker::Model;
use txn_log::{Coming, FileDecoder, SourceFault, read_source};

/// The bytes of the largest page.
const LARGEST_PAGE: usize = 65_536;

/// A transaction file as its bytes.
#[derive(Drop)]
pub struct EncodedFile<'a> {
    bytes: &'a [u8],
    header: Header,
    post: u64,
}

impl<'a> Model for EncodedFile<'a> {
    ghost use Rattle.ltx_codec.specs.declared.file.Ltx.{Ltx};
    ghost use Rattle.snapshot.specs.Encoded.{IsEncoded};
    ghost use Rattle.txn_log.specs.Kept.{file_of};

    ghost Value = { Ltx };

    ghost view = { λ f. file_of f.bytes.now };

    ghost invariant = { λ f. IsEncoded f.bytes.now f.header f.post };
}

/// The numbers in bytes are bytes.
fn are_bytes(bytes: &[u8])
    ensures { AreBytes bytes.now }
{}

/// Room for a piece of a file.
pub(crate) fn piece_room(alloc: Global) -> Option<Vec<u8>>
    ensures { IfSome result (λ piece. length piece.items ≡ 65536) }
{
    vec![in alloc; 0u8; LARGEST_PAGE].ok()
}

/// A source of these bytes.
pub(crate) fn source_of(alloc: Global, bytes: &[u8]) -> Result<SliceSource<'_>, NoMemory>
    ensures { IfOk result (λ source. source.left ≡ bytes.now) }
{
    SliceSource::new(bytes, Vec::new(alloc))
}

impl<'a> EncodedFile<'a> {
    /// The file that all of the bytes are. Of the faults the one that stands earliest is answered.
    pub fn read(alloc: Global, bytes: &'a [u8]) -> Result<EncodedFile<'a>, LtxFault>
        ensures ok { IfOk result (IsLtx bytes.now) }
        ensures fault { IfErr result (IsRefused bytes.now) }
    {
        file_is_read();
        are_bytes(bytes);
        let Some(mut piece) = piece_room(alloc) else {
            return Err(LtxFault::NoMemory);
        };
        let mut coming = Coming::new(FileDecoder::new(alloc)?);
        let mut source = source_of(alloc, bytes)?;
        match read_source(&mut source, &mut coming, piece.as_mut_slice()) {
            Ok(outline) => Ok(EncodedFile {
                bytes,
                header: outline.header,
                post: outline.post,
            }),
            Err(SourceFault::Ltx(fault)) => Err(fault),
            Err(SourceFault::Source) => Err(LtxFault::NoMemory),
        }
    }

    /// The bytes of a file that was decoded from them.
    pub fn of(bytes: &'a [u8], file: &Ltx) -> EncodedFile<'a>
        requires { IsLtx bytes.now file.now }
        ensures { result ≡ file.now }
    {
        file_is_read();
        are_bytes(bytes);
        EncodedFile {
            bytes,
            header: file.header,
            post: file.post,
        }
    }

    pub fn header(&self) -> Header
        ensures { result ≡ self.now.header }
    {
        self.header
    }

    /// The position that the file leads to.
    pub fn after(&self) -> Pos
        ensures { result ≡ position.after self.now }
    {
        Pos {
            txid: self.header.max,
            sum: self.post,
        }
    }

    /// The file is one of the format.
    pub fn valid(&self)
        ensures { IsFile self.now }
    {
        // Only so that the prover has the value at hand.
        let _post = self.post;
    }

    /// Its bytes.
    pub fn bytes(&self) -> &'a [u8]
        ensures { IsLtx result.now self.now }
    {
        self.bytes
    }
}
