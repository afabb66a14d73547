//! Parts of a file's encoding at the end of a vector. Where memory runs out, what stood there before
//! still stands at the front.
ghost use Rattle.std.specs.Prelude.{◌≡◌, ◌++◌, OnOk};
ghost use Rattle.std.specs.Io.{StartsWith};
ghost use Rattle.ltx_codec.specs.Format.{page_encoding, end_encoding};

use lf_base::NoMemory;

/// A page number and its page.
pub fn append_page(number: u32, page: &[u8], out: &mut Vec<u8>) -> Result<(), NoMemory>
    ensures ok { OnOk result (out.new.items ≡ out.old.items ++ page_encoding number page.now) }
    ensures grows { StartsWith out.new.items out.old.items }
{
    out.extend_from_slice(&number.to_be_bytes())?;
    out.extend_from_slice(page)?;
    Ok(())
}

/// The end of the page block and the sum of the pages.
pub fn append_end(post: u64, out: &mut Vec<u8>) -> Result<(), NoMemory>
    ensures ok { OnOk result (out.new.items ≡ out.old.items ++ end_encoding post) }
    ensures grows { StartsWith out.new.items out.old.items }
{
    out.extend_from_slice(&0u32.to_be_bytes())?;
    out.extend_from_slice(&post.to_be_bytes())?;
    Ok(())
}
