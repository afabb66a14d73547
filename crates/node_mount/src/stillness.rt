//! What is told of a node that stood still.
ghost use Rattle.std.specs.Prelude.{IfOk, OnOk};
ghost use Rattle.node_mount.specs.Noting.{BeginsWith, TellsStill};

use lf_base::NoMemory;
use node_objects::Line;
use std::alloc::Global;

/// The line of two looks at a node between which more than so many milliseconds passed.
pub fn still_line(alloc: Global, before: u64, now: u64, most: u64) -> Result<Option<Line>, NoMemory>
    ensures { IfOk result (TellsStill before now most) }
{
    let passed = now.saturating_sub(before);
    if passed <= most {
        return Ok(None);
    }
    let mut line = Line::of(alloc, b"stood still for ")?;
    put_millis(alloc, &mut line, passed)?;
    Ok(Some(line))
}

fn put_millis(alloc: Global, line: &mut Line, millis: u64) -> Result<(), NoMemory>
    ensures { OnOk result (BeginsWith line.new line.old) }
{
    let text = format!(in alloc; "{millis} ms")?;
    line.put(text.as_bytes())
}
