//! A line that a node tells.
ghost use Rattle.std.specs.Prelude.{◌≡◌, ◌++◌, ◌∷◌, [], All, IfOk, OnOk};
ghost use Rattle.node_objects.specs.Lines.{IsShown, line_of, shown, shown_byte};

use lf_base::NoMemory;
use std::alloc::Global;
use std::marker::Model;

/// The text of a line. It has no control character, so no newline: it is told behind `litefs: `, with a newline behind it.
#[derive(Drop)]
pub struct Line {
    text: Vec<u8>,
}

impl Model for Line {
    ghost use Rattle.std.specs.Prelude.{ℕ, All, List};
    ghost use Rattle.node_objects.specs.Lines.{IsShown};

    ghost Value = { List ℕ };

    ghost view = { λ l. l.text.items };

    ghost invariant = { λ l. All IsShown l.text.items };
}

impl Line {
    pub fn new(alloc: Global) -> Line
        ensures { result ≡ [] }
    {
        Line {
            text: Vec::new(alloc),
        }
    }

    /// A line that begins with these bytes.
    pub fn of(alloc: Global, bytes: &[u8]) -> Result<Line, NoMemory>
        ensures { IfOk result (λ line. line ≡ shown bytes.now) }
    {
        let mut line = Line::new(alloc);
        line.put(bytes)?;
        Ok(line)
    }

    /// The same line once more.
    pub fn copy(&self, alloc: Global) -> Result<Line, NoMemory>
        ensures { IfOk result (λ line. line ≡ self.now) }
    {
        let mut line = Line::new(alloc);
        line.put_line(self)?;
        Ok(line)
    }

    /// Adds these bytes, a blank for each control character.
    pub fn put(&mut self, bytes: &[u8]) -> Result<(), NoMemory>
        ensures { OnOk result (self.new ≡ self.old ++ shown bytes.now) }
    {
        put_shown(&mut self.text, bytes)
    }

    /// Adds the text of another line.
    pub fn put_line(&mut self, line: &Line) -> Result<(), NoMemory>
        ensures { OnOk result (self.new ≡ self.old ++ line.now) }
    {
        self.text.extend_from_slice(line.text.as_slice())?;
        Ok(())
    }

    pub fn text(&self) -> &[u8]
        ensures { result.now ≡ self.now }
    {
        self.text.as_slice()
    }

    /// The whole line.
    pub fn whole(&self, alloc: Global) -> Result<Vec<u8>, NoMemory>
        ensures { IfOk result (λ bytes. bytes.items ≡ line_of self.now) }
    {
        let mut bytes = Vec::new(alloc);
        bytes.extend_from_slice(b"litefs: ")?;
        bytes.extend_from_slice(self.text.as_slice())?;
        bytes.push(b'\n')?;
        Ok(bytes)
    }
}

fn put_shown(text: &mut Vec<u8>, bytes: &[u8]) -> Result<(), NoMemory>
    requires { All IsShown text.old.items }
    ensures put { OnOk result (text.new.items ≡ text.old.items ++ shown bytes.now) }
    ensures shown { All IsShown text.new.items }
{
    for byte in bytes {
        put_byte(text, *byte)?;
    }
    Ok(())
}

fn put_byte(text: &mut Vec<u8>, byte: u8) -> Result<(), NoMemory>
    requires { All IsShown text.old.items }
    ensures put { OnOk result (text.new.items ≡ text.old.items ++ shown_byte byte ∷ []) }
    ensures shown { All IsShown text.new.items }
{
    let byte = if byte < 32 { 32 } else { byte };
    text.push(byte)?;
    Ok(())
}
