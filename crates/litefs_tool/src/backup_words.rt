//! What is backed up and restored, read from the options of a command.
ghost use Rattle.std.specs.Prelude.{IfOk, MatchBool};
ghost use Rattle.backup_link.specs.LevelNames.{HasRoom};
ghost use Rattle.litefs_tool.specs.Words.{IsBackupRead, IsRestoreRead};

use crate::options::both_options;
use crate::remote::{Remote, read_database, read_remote};
use lf_base::{Name, NoMemory, Text, read_hex16};
use std::alloc::Global;

/// The longest name of a database that has a backup, in bytes. A level's folder has three more.
const LONGEST: usize = 61;

/// The database that these options say, where its name has room for the levels.
pub(crate) fn read_backup(alloc: Global, words: &[Text]) -> Result<Option<Remote>, NoMemory>
    ensures { IfOk result (IsBackupRead words.now) }
{
    let Some(remote) = read_remote(alloc, words)? else {
        return Ok(None);
    };
    if has_room(&remote.name) {
        Ok(Some(remote))
    } else {
        Ok(None)
    }
}

/// The database, and the transaction that it goes back to.
pub(crate) fn read_restore(alloc: Global, words: &[Text]) -> Result<Option<(Name, u64)>, NoMemory>
    ensures { IfOk result (IsRestoreRead words.now) }
{
    let Some((name, digits)) = both_options("--name", "--txid", words) else {
        return Ok(None);
    };
    let Some(txid) = read_hex16(digits.as_bytes()) else {
        return Ok(None);
    };
    let Some(name) = read_database(alloc, name)? else {
        return Ok(None);
    };
    if has_room(&name) {
        Ok(Some((name, txid)))
    } else {
        Ok(None)
    }
}

/// Whether the endings of a backup's folders have room behind a name.
pub(crate) fn has_room(name: &Name) -> bool
    ensures { MatchBool result (HasRoom name.now) (HasRoom name.now → ⊥) }
{
    name.bytes().len() <= LONGEST
}
