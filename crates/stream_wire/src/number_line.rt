//! The body of a request that names a database and a number.

ghost use Rattle.std.specs.Prelude.{◌≡◌, ◌++◌, length, IfOk, OnOk, ◌↔◌, IsTrue};
ghost use Rattle.stream_wire.specs.NumberLines.{number_line, number_end, ReadsNumberEnd, ReadsNamedNumber};

use crate::numbers::put_number;
use crate::stream_line::{is_same, name_of};
use lf_base::{Name, NoMemory, read_hex16};
use std::alloc::Global;

/// A blank, 16 digits and a newline.
const LINE_END: usize = 18;

/// Appends the line of a database and a number: the name, a blank, the number's 16 digits and a newline.
pub fn write_named_number(name: &Name, number: u64, out: &mut Vec<u8>) -> Result<(), NoMemory>
    ensures { OnOk result (out.new.items ≡ out.old.items ++ number_line name.now number) }
{
    out.extend_from_slice(name.bytes())?;
    out.extend_from_slice(b" ")?;
    put_number(number, b"\n", out)
}

/// The database and the number of such a line, and nothing of other bytes.
pub fn read_named_number(alloc: Global, line: &[u8]) -> Result<Option<(Name, u64)>, NoMemory>
    ensures { IfOk result (ReadsNamedNumber line.now) }
{
    if line.len() < LINE_END {
        return Ok(None);
    }
    let (name, end) = line.split_at(line.len() - LINE_END);
    let Some(number) = read_number_end(end) else {
        return Ok(None);
    };
    match name_of(alloc, name) {
        Ok(Some(name)) => Ok(Some((name, number))),
        Ok(None) => Ok(None),
        Err(_) => Err(NoMemory),
    }
}

/// The number that stands behind the name.
fn read_number_end(end: &[u8]) -> Option<u64>
    requires { length end.now ≡ 18 }
    ensures { ReadsNumberEnd end.now result }
{
    let (blank, rest) = end.split_at(1);
    let (digits, newline) = rest.split_at(16);
    if !is_same(blank, b" ") || !is_same(newline, b"\n") {
        return None;
    }
    read_hex16(digits)
}
