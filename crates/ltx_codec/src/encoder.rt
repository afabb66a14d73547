ghost use Rattle.std.specs.Prelude.{◌≡◌, ◌++◌, OnOk, OnErr, IfOk, IfErr};
ghost use Rattle.std.specs.Io.{StartsWith};
ghost use Rattle.page_checksum.specs.Crc.{after_bytes, all_ones};
ghost use Rattle.ltx_codec.specs.Format.{header_encoding, no_meaning, page_encoding};
ghost use Rattle.ltx_codec.specs.Encoding.{trailer_encoding};

use crate::appending::{append_end, append_page};
use crate::decoder_trailer::sealed;
use crate::header::Header;
use crate::layout::header_bytes;
use lf_base::NoMemory;
use page_checksum::{FIRST_REGISTER, crc_feed};
use std::marker::Model;

/// A file's encoding written part by part. It is seen as the register of the checksum after the parts
/// so far. What is appended, one part after another, is the encoding of a file (`parts_are_the_encoding`)
/// where the header, the numbers of the pages and the sum meet the format's rules and each page is
/// one page long.
#[derive(Drop)]
pub struct Encoder {
    register: u64,
}

impl Model for Encoder {
    ghost use Rattle.std.specs.Prelude.{ℕ};

    ghost Value = { ℕ };

    ghost view = { λ e. e.register };
}

impl Encoder {
    /// Appends the header. After want of memory `out` is as before.
    pub fn start(header: &Header, out: &mut Vec<u8>) -> Result<Encoder, NoMemory>
        ensures ok { OnOk result (out.new.items ≡ out.old.items ++ header_encoding header.now no_meaning) }
        ensures register { IfOk result (λ encoder. encoder ≡ after_bytes all_ones (header_encoding header.now no_meaning)) }
        ensures err { OnErr result (out.new.items ≡ out.old.items) }
    {
        let bytes = header_bytes(header);
        out.extend_from_slice(&bytes)?;
        Ok(Encoder {
            register: crc_feed(FIRST_REGISTER, &bytes),
        })
    }

    /// Appends a page. After want of memory the encoder and `out` are as before.
    pub fn page(&mut self, number: u32, bytes: &[u8], out: &mut Vec<u8>) -> Result<(), NoMemory>
        ensures ok { OnOk result (out.new.items ≡ out.old.items ++ page_encoding number bytes.now) }
        ensures register { OnOk result (self.new ≡ after_bytes self.old (page_encoding number bytes.now)) }
        ensures err { OnErr result ((out.new.items ≡ out.old.items) × (self.new ≡ self.old)) }
    {
        let start = out.len();
        if let Err(error) = append_page(number, bytes, out) {
            out.truncate(start);
            return Err(error);
        }
        let (_, written) = out.as_slice().split_at(start);
        self.register = crc_feed(self.register, written);
        Ok(())
    }

    /// Appends the end of the pages, the sum of the database after the transactions, and the file
    /// sum. After want of memory the encoder comes back and `out` is as before.
    pub fn finish(self, post: u64, out: &mut Vec<u8>) -> Result<(), (NoMemory, Encoder)>
        ensures ok { OnOk result (out.new.items ≡ out.old.items ++ trailer_encoding self post) }
        ensures err { OnErr result (out.new.items ≡ out.old.items) }
        ensures back { IfErr result (λ error. error.1 ≡ self) }
    {
        let start = out.len();
        if let Err(error) = self.append_trailer(post, out) {
            out.truncate(start);
            return Err((error, self));
        }
        Ok(())
    }

    fn append_trailer(&self, post: u64, out: &mut Vec<u8>) -> Result<(), NoMemory>
        ensures ok { OnOk result (out.new.items ≡ out.old.items ++ trailer_encoding self.now post) }
        ensures grows { StartsWith out.new.items out.old.items }
    {
        let start = out.len();
        append_end(post, out)?;
        let (_, written) = out.as_slice().split_at(start);
        let sum = sealed(crc_feed(self.register, written));
        out.extend_from_slice(&sum.to_be_bytes())?;
        Ok(())
    }
}
