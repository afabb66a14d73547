ghost use Rattle.std.specs.Prelude.{◌≡◌, ◌++◌, OnOk, OnErr};
ghost use Rattle.std.specs.Io.{StartsWith};
ghost use Rattle.page_checksum.specs.Crc.{after_bytes};
ghost use Rattle.ltx_codec.specs.Format.{IsFile, IsLtx, file_encoding, no_meaning, pages_encoding};

use crate::encoder::Encoder;
use crate::file::Ltx;
use lf_base::NoMemory;
use lf_sqlite_pages::PageWrite;

/// Appends the encoding of a file, with flags and reserved bytes of 0. After want of memory `out` is
/// as before.
pub fn encode(ltx: &Ltx, out: &mut Vec<u8>) -> Result<(), NoMemory>
    requires { IsFile ltx.now }
    ensures ok { OnOk result (out.new.items ≡ out.old.items ++ file_encoding ltx.now no_meaning) }
    ensures reads_back { IsLtx (file_encoding ltx.now no_meaning) ltx.now }
    ensures err { OnErr result (out.new.items ≡ out.old.items) }
{
    let start = out.len();
    if let Err(error) = append_file(ltx, out) {
        out.truncate(start);
        return Err(error);
    }
    Ok(())
}

fn append_file(ltx: &Ltx, out: &mut Vec<u8>) -> Result<(), NoMemory>
    ensures ok { OnOk result (out.new.items ≡ out.old.items ++ file_encoding ltx.now no_meaning) }
    ensures grows { StartsWith out.new.items out.old.items }
{
    let mut encoder = Encoder::start(&ltx.header, out)?;
    append_pages(&mut encoder, ltx.change.pages(), out)?;
    match encoder.finish(ltx.post, out) {
        Ok(()) => Ok(()),
        Err((error, _)) => Err(error),
    }
}

fn append_pages(
    encoder: &mut Encoder,
    pages: &[PageWrite],
    out: &mut Vec<u8>,
) -> Result<(), NoMemory>
    ensures ok { OnOk result (out.new.items ≡ out.old.items ++ pages_encoding pages.now) }
    ensures register { OnOk result (encoder.new ≡ after_bytes encoder.old (pages_encoding pages.now)) }
    ensures grows { StartsWith out.new.items out.old.items }
{
    for page in pages {
        encoder.page(page.number, page.bytes.as_slice(), out)?;
    }
    Ok(())
}
