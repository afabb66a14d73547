//! The reply that gives a write permit.

ghost use Rattle.std.specs.Prelude.{◌≡◌, ◌++◌, OnOk};
ghost use Rattle.stream_wire.specs.NumberLines.{pass_line, ReadsPosEnd, ReadsPassLine};

use crate::numbers::{number_then, put_number};
use lf_base::{NoMemory, Pos};

/// A write permit, and the position of the primary that gave it.
#[derive(Clone, Copy, Debug, PartialEq, Eq)]
pub struct PassLine {
    pub number: u64,
    /// The moment at which the permit ends, in milliseconds of the primary's clock.
    pub until: u64,
    pub pos: Pos,
}

/// Appends the line of a permit: number, moment and position in print, blanks between, and a newline.
#[tactic(auto, using(crate::proofs::NumberParts::pass_text))]
pub fn write_pass_line(pass: PassLine, out: &mut Vec<u8>) -> Result<(), NoMemory>
    ensures { OnOk result (out.new.items ≡ out.old.items ++ pass_line pass) }
{
    put_number(pass.number, b" ", out)?;
    put_number(pass.until, b" ", out)?;
    put_number(pass.pos.txid, b"/", out)?;
    put_number(pass.pos.sum, b"\n", out)?;
    Ok(())
}

/// The permit of such a line, and nothing of other bytes.
pub fn read_pass_line(line: &[u8]) -> Option<PassLine>
    ensures { ReadsPassLine line.now result }
{
    let Some((number, rest)) = number_then(line, b' ') else {
        return None;
    };
    let Some((until, rest)) = number_then(rest, b' ') else {
        return None;
    };
    match read_pos_end(rest) {
        Some(pos) => Some(PassLine { number, until, pos }),
        None => None,
    }
}

/// The position that ends the line.
fn read_pos_end(end: &[u8]) -> Option<Pos>
    ensures { ReadsPosEnd end.now result }
{
    let Some((txid, rest)) = number_then(end, b'/') else {
        return None;
    };
    let Some((sum, rest)) = number_then(rest, b'\n') else {
        return None;
    };
    if !rest.is_empty() {
        return None;
    }
    Some(Pos { txid, sum })
}
