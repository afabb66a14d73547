//! What is run under the lock of a database, read from the words of a command.
ghost use Rattle.std.specs.Prelude.{◌≡◌, ◌≢◌, ◌∷◌, ◌++◌, [], IfOk, MatchOption, codes};
ghost use Rattle.litefs_tool.specs.Words.{IsTaskRead, Words};

use crate::options::take_both;
use crate::remote::read_database;
use crate::word_list::WordList;
use lf_base::{Name, NoMemory, Text};
use std::alloc::Global;

/// A program that is run under the lock of a database: the database's name, the address of a node's file
/// socket, `unix:` and its path, and the program's words, at least one.
#[derive(Debug, Drop)]
pub struct Task {
    pub name: Name,
    pub address: Text,
    pub words: WordList,
}

/// What these words say is run.
pub(crate) fn read_task(alloc: Global, words: &[Text]) -> Result<Option<Task>, NoMemory>
    ensures { IfOk result (IsTaskRead words.now) }
{
    let Some((socket, name, behind)) = take_both("--socket", "--name", words) else {
        return Ok(None);
    };
    let Some(program) = program_in(behind) else {
        return Ok(None);
    };
    let Some(name) = read_database(alloc, name)? else {
        return Ok(None);
    };
    let address = socket_address(alloc, socket)?;
    let words = WordList::of(alloc, program)?;
    Ok(Some(Task {
        name,
        address,
        words,
    }))
}

/// The words behind a `--` that stands first, where there are any.
fn program_in(words: &[Text]) -> Option<&[Text]>
    ensures { MatchOption result ((program : Words) → words.now ≡ codes "--" ∷ program → program ≡ []) (λ program. (words.now ≡ codes "--" ∷ program.now) × (program.now ≢ [])) }
{
    let (first, program) = words.split_first()?;
    if first.as_str() == "--" && !program.is_empty() {
        Some(program)
    } else {
        None
    }
}

/// The address of the socket of this path.
fn socket_address(alloc: Global, path: &str) -> Result<Text, NoMemory>
    ensures { IfOk result (λ address. address ≡ codes "unix:" ++ path.now) }
{
    let mut address = String::from_str(alloc, "unix:")?;
    address.push_str(path)?;
    Text::of(alloc, address.as_str())
}
