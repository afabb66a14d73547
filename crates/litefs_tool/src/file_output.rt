//! A file written whole, its parts gathered before they are written.
ghost use Rattle.std.specs.Prelude.{◌≡◌, ◌+◌, ◌≤◌, ◌++◌, [], All, length, vec_capacity, IfOk, OnOk, OnErr};
ghost use Rattle.std.specs.Io.KnownBytes.{Appends};
ghost use Rattle.page_checksum.specs.Crc.{after_bytes};
ghost use Rattle.lf_base.specs.Faults.{CountsFaults};
ghost use Rattle.ltx_codec.specs.Encoding.{trailer_encoding};
ghost use Rattle.ltx_codec.specs.Format.{IsFile, file_encoding, no_meaning, pages_encoding, end_encoding};
ghost use Rattle.litefs_tool.specs.Output.{AppendsPrefix};
ghost use Rattle.litefs_tool.specs.steps.Buffer.{AppendsAllBut};

use crate::output::{BUFFER, add_bytes, write_whole};
use lf_base::{Failed, Sink};
use lf_sqlite_pages::PageWrite;
use ltx_codec::{Ltx, header_bytes, parts_are_the_encoding, sealed};
use page_checksum::{FIRST_REGISTER, crc_feed};

/// Writes a file, with flags and reserved bytes of 0. After a fault of the sink, it took a prefix of
/// its bytes.
pub fn write_file<S: Sink>(sink: &mut S, file: &Ltx, buffer: &mut Vec<u8>) -> Result<(), Failed>
    requires valid { IsFile file.now }
    requires empty { buffer.old.items ≡ [] }
    requires room { BUFFER ≤ vec_capacity buffer.old }
    ensures whole { OnOk result (Appends (S.taken sink.old) (S.taken sink.new) (file_encoding file.now no_meaning)) }
    ensures prefix { OnErr result (AppendsPrefix (S.taken sink.old) (S.taken sink.new) (file_encoding file.now no_meaning)) }
    ensures cause { CountsFaults (S.faults sink.old) (S.faults sink.new) result }
{
    parts_are_the_encoding();
    let header = header_bytes(&file.header);
    add_bytes(sink, &header, buffer)?;
    let register = crc_feed(FIRST_REGISTER, &header);
    let register = add_pages(sink, file.change.pages(), buffer, register)?;
    write_end(sink, file.post, buffer, register)
}

/// Puts pages behind what is gathered, each behind its number, and answers the register after them.
fn add_pages<S: Sink>(
    sink: &mut S,
    pages: &[PageWrite],
    buffer: &mut Vec<u8>,
    register: u64,
) -> Result<u64, Failed>
    requires fits { All (λ page. length page.bytes ≤ BUFFER) pages.now }
    requires room { BUFFER ≤ vec_capacity buffer.old }
    ensures whole { OnOk result (AppendsAllBut (S.taken sink.old) (S.taken sink.new) (buffer.old.items ++ pages_encoding pages.now) buffer.new.items) }
    ensures register { IfOk result (λ after. after ≡ after_bytes register (pages_encoding pages.now)) }
    ensures prefix { OnErr result (AppendsPrefix (S.taken sink.old) (S.taken sink.new) (buffer.old.items ++ pages_encoding pages.now)) }
    ensures cause { CountsFaults (S.faults sink.old) (S.faults sink.new) result }
    ensures room { BUFFER ≤ vec_capacity buffer.new }
{
    let mut register = register;
    for page in pages {
        let bytes = page.bytes.as_slice();
        let number = page.number.to_be_bytes();
        add_bytes(sink, &number, buffer)?;
        add_bytes(sink, bytes, buffer)?;
        register = crc_feed(crc_feed(register, &number), bytes);
    }
    Ok(register)
}

/// Writes what is gathered, and behind it the end of the pages and the trailer.
fn write_end<S: Sink>(
    sink: &mut S,
    post: u64,
    buffer: &mut Vec<u8>,
    register: u64,
) -> Result<(), Failed>
    requires { BUFFER ≤ vec_capacity buffer.old }
    ensures whole { OnOk result (Appends (S.taken sink.old) (S.taken sink.new) (buffer.old.items ++ trailer_encoding register post)) }
    ensures prefix { OnErr result (AppendsPrefix (S.taken sink.old) (S.taken sink.new) (buffer.old.items ++ trailer_encoding register post)) }
    ensures cause { CountsFaults (S.faults sink.old) (S.faults sink.new) result }
{
    let end = end_bytes(post);
    let sum = sealed(crc_feed(register, &end));
    add_bytes(sink, &end, buffer)?;
    add_bytes(sink, &sum.to_be_bytes(), buffer)?;
    write_whole(sink, buffer.as_slice())
}

/// The number 0 that ends the pages, and the sum of the database after the transactions.
fn end_bytes(post: u64) -> [u8; 12]
    ensures { result ≡ end_encoding post }
{
    let mut bytes = [0; 12];
    bytes[4..].copy_from_slice(&post.to_be_bytes());
    bytes
}
