//! A file that another node sent.
ghost use Rattle.std.specs.Prelude.{◌≡◌, ◌≢◌, IfNone, IfOk, IfErr, IfSome};
ghost use Rattle.ltx_codec.specs.Format.{IsFile, IsLtx};
ghost use Rattle.ltx_codec.specs.Places.{IsRefused};
ghost use Rattle.ltx_codec.specs.Positions as position;

use lf_base::Pos;
use ltx_codec::{Ltx, LtxFault, decode};
use snapshot::EncodedFile;
use std::alloc::Global;
use std::marker::Model;

/// A file of another node: its bytes, and where it is no snapshot its pages beside them. A snapshot may
/// be as large as a database, so its pages are never copied.
#[derive(Drop)]
pub(crate) struct Received<'a> {
    encoded: EncodedFile<'a>,
    pages: Option<Ltx>,
}

impl<'a> Model for Received<'a> {
    ghost use Rattle.std.specs.Prelude.{◌≡◌, ◌≢◌, IfNone, IfSome};
    ghost use Rattle.ltx_codec.specs.declared.file.Ltx.{Ltx};

    ghost Value = { Ltx };

    ghost view = { λ r. r.encoded };

    ghost invariant = { λ r. IfSome r.pages (λ file. (file ≡ r.encoded) × (r.encoded.header.min ≢ 1)) × IfNone r.pages (r.encoded.header.min ≡ 1) };
}

/// Whether a file of these bytes begins with transaction 1.
fn begins_first(bytes: &[u8]) -> bool {
    matches!(bytes.get(16..24), Some([0, 0, 0, 0, 0, 0, 0, 1]))
}

impl<'a> Received<'a> {
    /// The file that all of the bytes are. Of the faults the one that stands earliest is answered.
    pub fn read(alloc: Global, bytes: &'a [u8]) -> Result<Received<'a>, LtxFault>
        ensures ok { IfOk result (IsLtx bytes.now) }
        ensures fault { IfErr result (IsRefused bytes.now) }
    {
        if begins_first(bytes) {
            let encoded = EncodedFile::read(alloc, bytes)?;
            if encoded.header().min == 1 {
                return Ok(Received {
                    encoded,
                    pages: None,
                });
            }
        }
        let file = decode(alloc, bytes)?;
        let encoded = EncodedFile::of(bytes, &file);
        let pages = if file.header.min == 1 {
            None
        } else {
            Some(file)
        };
        Ok(Received { encoded, pages })
    }

    /// The position that the file leads to.
    pub fn after(&self) -> Pos
        ensures { result ≡ position.after self.now }
    {
        self.encoded.after()
    }

    /// The file is one of the format.
    pub fn valid(&self)
        ensures { IsFile self.now }
    {
        self.encoded.valid();
    }

    pub fn encoded(&self) -> &EncodedFile<'a>
        ensures { result.now ≡ self.now }
    {
        &self.encoded
    }

    /// The file with its pages, where it is no snapshot.
    pub fn pages(&self) -> Option<&Ltx>
        ensures some { IfSome result (λ file. (file.now ≡ self.now) × (self.now.header.min ≢ 1)) }
        ensures none { IfNone result (self.now.header.min ≡ 1) }
    {
        self.pages.as_ref()
    }
}
