//! What is told of a data directory that is no store's.
ghost use Rattle.std.specs.Prelude.{◌≡◌, IfOk};
ghost use Rattle.node_mount.specs.DamageLines.{damage_line as damage_line_of, unrecovered_line as unrecovered_line_of};

use lf_base::{Handles, Name, NoMemory, hex16};
use lf_disk::FileName;
use node_objects::{Line, Lines, Maker, put_file};
use node_recovery::RecoverFault;
use node_settings::Settings;
use std::alloc::Global;

/// Tells which file is damaged, where one is.
pub fn tell_unrecovered<R: Handles, M: Maker>(
    rt: &R,
    alloc: Global,
    settings: &Settings,
    why: RecoverFault,
    make: &mut M,
)
    ensures kept { (M.asked make.new ≡ M.asked make.old) × (M.number make.new ≡ M.number make.old) }
    ensures same { (M.counts make.new ≡ M.counts make.old) × (M.back make.new ≡ M.back make.old) }
{
    if let Ok(Some(line)) = unrecovered_line(alloc, &settings.database, why) {
        let mut lines = Lines::new(make.tell(), settings.log);
        lines.say(rt, Ok(line));
    }
}

/// The line of a directory that was not recovered, where there is one.
fn unrecovered_line(
    alloc: Global,
    database: &Name,
    why: RecoverFault,
) -> Result<Option<Line>, NoMemory>
    ensures { IfOk result (λ line. line ≡ unrecovered_line_of database.now why) }
{
    match why {
        RecoverFault::Damaged { file, want, got } => {
            let line = damage_line(alloc, database, file, want, got)?;
            Ok(Some(line))
        }
        RecoverFault::Disk | RecoverFault::NoMemory => Ok(None),
    }
}

fn damage_line(
    alloc: Global,
    database: &Name,
    file: FileName,
    want: u64,
    got: u64,
) -> Result<Line, NoMemory>
    ensures { IfOk result (λ line. line ≡ damage_line_of database.now file want got) }
{
    let mut line = Line::of(alloc, b"damaged: dbs/")?;
    line.put(database.bytes())?;
    put_file(&mut line, Some(file))?;
    line.put(b": ")?;
    line.put(&hex16(want))?;
    line.put(b" is wanted, ")?;
    line.put(&hex16(got))?;
    line.put(b" is there")?;
    Ok(line)
}
