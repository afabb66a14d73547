//! The commands, and the arguments of the program.
//!
//! clap reads a command's name. The options behind it are read by hand.
ghost use Rattle.std.specs.Prelude.{◌≡◌, ◌∷◌, [], IfOk, MatchOption, Some};
ghost use Rattle.litefs_tool.specs.Words.{IsReadAs, name_text};

use crate::backup_words::{read_backup, read_restore};
use crate::naming::{CommandName, read_name};
use crate::number::read_number;
use crate::remote::{Remote, read_remote};
use crate::task::{Task, read_task};
use lf_base::{Name, NoMemory, Text};
use std::alloc::Global;

/// A command of the program.
#[derive(Debug, Drop)]
pub enum Command {
    /// LTX files become the database's bytes.
    Apply,
    /// LTX files that join become one.
    Compact,
    /// A node serves the files of a database.
    Mount,
    /// A lease service says which node is primary.
    Lease,
    /// A node's database becomes the output.
    Export(Remote),
    /// The input becomes a node's database.
    Import(Remote),
    /// A cluster in memory, of this seed.
    Drill(u64),
    /// What is new in a node's database goes into a backup.
    Backup(Remote),
    /// A backup's database, as it was after a transaction, becomes the output.
    Restore { name: Name, txid: u64 },
    /// A program runs under the lock of a database.
    Run(Task),
}

/// The command of these arguments. They are read to the letter: none more, and none less.
pub fn read_arguments(alloc: Global, arguments: &[Text]) -> Result<Option<Command>, NoMemory>
    ensures { IfOk result (IsReadAs arguments.now) }
{
    let Some((name, words)) = arguments.split_first() else {
        return Ok(None);
    };
    match read_name(alloc, name)? {
        Some(name) => read_words(alloc, name, words),
        None => Ok(None),
    }
}

/// The command of this name, by the words behind it.
fn read_words(alloc: Global, name: CommandName, words: &[Text]) -> Result<Option<Command>, NoMemory>
    ensures { IfOk result (IsReadAs (name_text name ∷ words.now)) }
{
    match name {
        CommandName::Apply => Ok(alone(Command::Apply, words)),
        CommandName::Compact => Ok(alone(Command::Compact, words)),
        CommandName::Mount => Ok(alone(Command::Mount, words)),
        CommandName::Lease => Ok(alone(Command::Lease, words)),
        CommandName::Export => match read_remote(alloc, words)? {
            Some(remote) => Ok(Some(Command::Export(remote))),
            None => Ok(None),
        },
        CommandName::Import => match read_remote(alloc, words)? {
            Some(remote) => Ok(Some(Command::Import(remote))),
            None => Ok(None),
        },
        CommandName::Drill => match read_number(words) {
            Some(number) => Ok(Some(Command::Drill(number))),
            None => Ok(None),
        },
        CommandName::Backup => match read_backup(alloc, words)? {
            Some(remote) => Ok(Some(Command::Backup(remote))),
            None => Ok(None),
        },
        CommandName::Restore => match read_restore(alloc, words)? {
            Some((name, txid)) => Ok(Some(Command::Restore { name, txid })),
            None => Ok(None),
        },
        CommandName::Run => match read_task(alloc, words)? {
            Some(task) => Ok(Some(Command::Run(task))),
            None => Ok(None),
        },
    }
}

/// The command, where no word follows its name.
fn alone(command: Command, words: &[Text]) -> Option<Command>
    ensures { MatchOption result (words.now ≡ [] → ⊥) (λ alone. (alone ≡ command) × (words.now ≡ [])) }
{
    if words.is_empty() {
        Some(command)
    } else {
        None
    }
}
