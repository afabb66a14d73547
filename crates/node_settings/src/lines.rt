//! On which line a key is said, and on which a text is no TOML any more.
ghost use Rattle.std.specs.Prelude.{◌≡◌, ◌≤◌, IfOk, length};
ghost use Rattle.toml.specs.View.{table_view};
ghost use Rattle.node_settings.specs.Lines.{IsBrokenOn, IsDocument, IsLineOf, line_behind};
ghost use Rattle.node_settings.specs.Rules.{Stands, StandsAt};
ghost use Rattle.node_settings.specs.Walks.{LooksAt, WalksTo};

use crate::Place;
use crate::place::stands;
use lf_base::NoMemory;
use std::alloc::Global;
use toml::Table;

/// Where a walk over the lines of a text ends.
#[derive(Clone, Copy, Debug)]
pub(crate) enum Walk {
    /// At the statement behind so many bytes, which says the key.
    Brings(usize),
    /// Behind so many bytes. No more lines are TOML.
    Ends(usize),
}

/// What the first lines of a text are.
#[derive(Clone, Copy, Debug)]
pub(crate) enum Look {
    NoToml,
    WithoutKey,
    WithKey,
}

/// The line on which the key of this name is said, where it is.
pub(crate) fn line_of(
    alloc: Global,
    text: &[u8],
    root: &Table,
    place: Place,
    name: &str,
) -> Result<Option<usize>, NoMemory>
    requires { IsDocument text.now (table_view root.now) }
    ensures { IfOk result (IsLineOf (StandsAt place name.now) text.now (table_view root.now)) }
{
    if stands(place, Some(name), root) {
        match walk_lines(alloc, text, place, Some(name))? {
            Walk::Brings(at) => Ok(Some(line_behind(text, at))),
            Walk::Ends(_) => unreachable!(),
        }
    } else {
        Ok(None)
    }
}

/// The line from which on a text that is no TOML is none.
pub(crate) fn broken_line(alloc: Global, text: &[u8]) -> Result<usize, NoMemory>
    ensures { IfOk result (IsBrokenOn text.now) }
{
    match walk_lines(alloc, text, Place::Root, None)? {
        Walk::Ends(at) => Ok(line_behind(text, at)),
        Walk::Brings(_) => unreachable!(),
    }
}

/// Reads the text line by line, until the key of this name stands there.
fn walk_lines(
    alloc: Global,
    text: &[u8],
    place: Place,
    name: Option<&str>,
) -> Result<Walk, NoMemory>
    ensures { IfOk result (WalksTo (Stands place name.entry) text.now) }
{
    let mut good = 0;
    for (at, byte) in text.iter().enumerate() {
        let next = at + 1;
        if *byte == b'\n' || next == text.len() {
            match look_at(alloc, &text[..next], place, name)? {
                Look::NoToml => {}
                Look::WithoutKey => good = next,
                Look::WithKey => return Ok(Walk::Brings(good)),
            }
        }
    }
    Ok(Walk::Ends(good))
}

fn look_at(alloc: Global, text: &[u8], place: Place, name: Option<&str>) -> Result<Look, NoMemory>
    ensures { IfOk result (LooksAt (Stands place name.entry) text.now) }
{
    match toml::table_from_slice(alloc, text) {
        Ok(root) => {
            if stands(place, name, &root) {
                Ok(Look::WithKey)
            } else {
                Ok(Look::WithoutKey)
            }
        }
        Err(error) if error.is_memory() => Err(NoMemory),
        Err(_) => Ok(Look::NoToml),
    }
}

/// The number of the line that begins behind so many bytes.
fn line_behind(text: &[u8], at: usize) -> usize
    requires { at ≤ length text.now }
    ensures { result ≡ line_behind at text.now }
{
    let mut line = 1;
    for byte in &text[..at] {
        if *byte == b'\n' {
            line += 1;
        }
    }
    line
}
