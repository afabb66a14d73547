//! The files that are short texts: the position, and the primary's host.
ghost use Rattle.std.specs.Prelude.{◌≡◌, IfOk};
ghost use Rattle.file_handles.specs.Texts.{position_line, line, part};

use lf_base::{NoMemory, Pos, pos_text};
use std::alloc::Global;

/// The position in print, and a newline: 34 bytes.
pub fn position_line(alloc: Global, pos: Pos) -> Result<Vec<u8>, NoMemory>
    ensures { IfOk result (λ text. text.items ≡ position_line pos) }
{
    with_newline(alloc, &pos_text(pos))
}

/// A text and a newline.
pub fn with_newline(alloc: Global, text: &[u8]) -> Result<Vec<u8>, NoMemory>
    ensures { IfOk result (λ bytes. bytes.items ≡ line text.now) }
{
    let mut bytes = Vec::from_slice(alloc, text)?;
    bytes.push(b'\n')?;
    Ok(bytes)
}

/// As many bytes of a text from `at` on as there are, at most `size`.
pub fn copied_from(alloc: Global, text: &[u8], at: u64, size: u32) -> Result<Vec<u8>, NoMemory>
    ensures { IfOk result (λ bytes. bytes.items ≡ part text.now at size) }
{
    if at >= text.len() as u64 {
        return Ok(Vec::new(alloc));
    }
    let from = at as usize;
    let count = (size as usize).min(text.len() - from);
    let bytes = Vec::from_slice(alloc, &text[from..from + count])?;
    Ok(bytes)
}
