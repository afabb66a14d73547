//! Bytes written whole.
ghost use Rattle.std.specs.Prelude.{◌≡◌, ◌≤◌, ◌++◌, [], length, vec_capacity, IfOk, OnOk, OnErr};
ghost use Rattle.std.specs.Io.KnownBytes.{Appends};
ghost use Rattle.lf_base.specs.Faults.{CountsFaults};
ghost use Rattle.lf_sqlite_pages.specs.Image.{image_bytes};
ghost use Rattle.litefs_tool.specs.Output.{AppendsPrefix};
ghost use Rattle.litefs_tool.specs.steps.Buffer.{AppendsAllBut};

use lf_base::{Failed, NoMemory, Sink};
use lf_sqlite_pages::Image;
use std::alloc::Global;

/// Writes all the bytes, in as many calls as the sink wants. After a fault of the sink, it took a
/// prefix of them.
pub fn write_whole<S: Sink>(sink: &mut S, bytes: &[u8]) -> Result<(), Failed>
    ensures whole { OnOk result (Appends (S.taken sink.old) (S.taken sink.new) bytes.now) }
    ensures prefix { OnErr result (AppendsPrefix (S.taken sink.old) (S.taken sink.new) bytes.now) }
    ensures cause { CountsFaults (S.faults sink.old) (S.faults sink.new) result }
{
    let mut done = 0;
    while done < bytes.len() {
        let (_, rest) = bytes.split_at(done);
        done += sink.write(rest)?;
    }
    Ok(())
}

/// How many bytes of pages are gathered before they are written.
pub const BUFFER: usize = 131_072;

/// An empty buffer for pages.
pub fn new_buffer(alloc: Global) -> Result<Vec<u8>, NoMemory>
    ensures empty { IfOk result (λ buffer. buffer.items ≡ []) }
    ensures room { IfOk result (λ buffer. BUFFER ≤ vec_capacity buffer) }
{
    Ok(Vec::with_capacity(alloc, BUFFER)?)
}

/// Writes the pages of an image, one after another, gathered in the buffer. After a fault of the
/// sink, it took a prefix of their bytes.
pub fn write_image<S: Sink>(sink: &mut S, image: &Image, buffer: &mut Vec<u8>) -> Result<(), Failed>
    requires empty { buffer.old.items ≡ [] }
    requires room { BUFFER ≤ vec_capacity buffer.old }
    ensures whole { OnOk result (Appends (S.taken sink.old) (S.taken sink.new) (image_bytes image.now)) }
    ensures prefix { OnErr result (AppendsPrefix (S.taken sink.old) (S.taken sink.new) (image_bytes image.now)) }
    ensures cause { CountsFaults (S.faults sink.old) (S.faults sink.new) result }
{
    let mut number = 0;
    while number < image.commit() {
        number += 1;
        add_bytes(sink, image.page(number), buffer)?;
    }
    let rest = buffer.as_slice();
    write_whole(sink, rest)
}

/// Puts bytes behind those in the buffer. Where it has no room, those are written first.
pub fn add_bytes<S: Sink>(sink: &mut S, bytes: &[u8], buffer: &mut Vec<u8>) -> Result<(), Failed>
    requires fits { length bytes.now ≤ vec_capacity buffer.old }
    ensures whole { OnOk result (AppendsAllBut (S.taken sink.old) (S.taken sink.new) (buffer.old.items ++ bytes.now) buffer.new.items) }
    ensures prefix { OnErr result (AppendsPrefix (S.taken sink.old) (S.taken sink.new) buffer.old.items) }
    ensures cause { CountsFaults (S.faults sink.old) (S.faults sink.new) result }
    ensures room { vec_capacity buffer.old ≤ vec_capacity buffer.new }
{
    if buffer.capacity() - buffer.len() < bytes.len() {
        write_whole(sink, buffer.as_slice())?;
        buffer.clear();
    }
    buffer.extend_from_slice(bytes).unwrap();
    Ok(())
}
