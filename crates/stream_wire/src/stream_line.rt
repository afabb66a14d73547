//! The body of a request for a stream.

ghost use Rattle.std.specs.Prelude.{◌≡◌, ◌++◌, length, IfOk, OnOk, ◌↔◌, IsTrue};
ghost use Rattle.stream_wire.specs.StreamLine.{stream_line, ReadsLineEnd, ReadsName, ReadsStreamLine};

use lf_base::{Name, NameFault, NoMemory, Pos, pos_text, read_pos};
use std::alloc::Global;

/// A blank, the position in print and a newline.
const LINE_END: usize = 35;

/// Appends the line that asks for the stream of a database from a position on.
pub fn write_stream_line(name: &Name, pos: Pos, out: &mut Vec<u8>) -> Result<(), NoMemory>
    ensures { OnOk result (out.new.items ≡ out.old.items ++ stream_line name.now pos) }
{
    out.extend_from_slice(name.bytes())?;
    out.extend_from_slice(b" ")?;
    out.extend_from_slice(&pos_text(pos))?;
    out.extend_from_slice(b"\n")?;
    Ok(())
}

/// The database and the position of such a line, and nothing of other bytes.
pub fn read_stream_line(alloc: Global, line: &[u8]) -> Result<Option<(Name, Pos)>, NoMemory>
    ensures { IfOk result (ReadsStreamLine line.now) }
{
    if line.len() < LINE_END {
        return Ok(None);
    }
    let (name, end) = line.split_at(line.len() - LINE_END);
    let Some(pos) = read_line_end(end) else {
        return Ok(None);
    };
    match name_of(alloc, name) {
        Ok(Some(name)) => Ok(Some((name, pos))),
        Ok(None) => Ok(None),
        Err(_) => Err(NoMemory),
    }
}

/// The bytes as a name, where they are one.
pub(crate) fn name_of(alloc: Global, bytes: &[u8]) -> Result<Option<Name>, NoMemory>
    ensures { IfOk result (ReadsName bytes.now) }
{
    match Name::read(alloc, bytes) {
        Ok(name) => Ok(Some(name)),
        Err(NameFault::NoMemory) => Err(NoMemory),
        Err(NameFault::Length | NameFault::First | NameFault::Byte { .. } | NameFault::Suffix) => {
            Ok(None)
        }
    }
}

/// The position that stands behind the name.
fn read_line_end(end: &[u8]) -> Option<Pos>
    requires { length end.now ≡ 35 }
    ensures { ReadsLineEnd end.now result }
{
    let (blank, rest) = end.split_at(1);
    let (text, newline) = rest.split_at(33);
    if !is_same(blank, b" ") || !is_same(newline, b"\n") {
        return None;
    }
    read_pos(text)
}

pub(crate) fn is_same(bytes: &[u8], word: &[u8]) -> bool
    ensures { IsTrue result ↔ (bytes.now ≡ word.now) }
{
    bytes == word
}
