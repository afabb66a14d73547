//! The names of a backup's folders.
ghost use Rattle.std.specs.Prelude.{◌≡◌, ◌≤◌, IfOk};
ghost use Rattle.lf_base.specs.declared.name.NameFault.TheVariants as faults;
ghost use Rattle.backup_link.specs.LevelNames.{HasRoom, level_name};

use lf_base::{Name, NameFault, NoMemory};
use std::alloc::Global;

/// The name of a level's folder: `.l0`, `.l1` or `.l2` behind the name of the database.
pub fn level_name(alloc: Global, name: &Name, level: u8) -> Result<Name, NoMemory>
    requires room { HasRoom name.now }
    requires level { level ≤ 2 }
    ensures { IfOk result (λ folder. folder ≡ level_name name.now level) }
{
    let mut text = Vec::from_slice(alloc, name.bytes())?;
    text.extend_from_slice(b".l")?;
    text.push(b'0' + level)?;
    match Name::read(alloc, text.as_slice()) {
        Ok(folder) => Ok(folder),
        Err(fault) => Err(want_of(fault)),
    }
}

/// The one fault of such a name.
fn want_of(_fault: NameFault) -> NoMemory
    requires { _fault ≡ faults.NoMemory }
{
    NoMemory
}
