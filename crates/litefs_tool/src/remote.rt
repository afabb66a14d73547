//! Where a database of a node is found, read from the options of a command.
ghost use Rattle.std.specs.Prelude.{ℕ, List, IfOk, MatchOption};
ghost use Rattle.litefs_tool.specs.Words.{IsAddressIn, IsNameRead, IsRemoteRead, SaysValues};

use crate::options::{both_options, only_option};
use lf_base::{Name, NameFault, NoMemory, Text};
use std::alloc::Global;

/// A database of a node: its name, and the address at which the node is asked, as `host:port`.
#[derive(Debug, Drop)]
pub struct Remote {
    pub name: Name,
    pub address: Text,
}

/// The address that is asked where none is given.
const HERE: &str = "localhost:20202";

/// The database that these options say.
pub(crate) fn read_remote(alloc: Global, words: &[Text]) -> Result<Option<Remote>, NoMemory>
    ensures { IfOk result (IsRemoteRead words.now) }
{
    let Some((name, given)) = read_values(words) else {
        return Ok(None);
    };
    let Some(name) = read_database(alloc, name)? else {
        return Ok(None);
    };
    let address = Text::of(alloc, address_in(given))?;
    Ok(Some(Remote { name, address }))
}

/// The name of a database, if the word is one.
pub(crate) fn read_database(alloc: Global, word: &str) -> Result<Option<Name>, NoMemory>
    ensures { IfOk result (IsNameRead word.now) }
{
    match Name::read(alloc, word.as_bytes()) {
        Ok(name) => Ok(Some(name)),
        Err(NameFault::NoMemory) => Err(NoMemory),
        Err(_) => Ok(None),
    }
}

/// The address without the `http://` before it.
fn address_in(given: &str) -> &str
    ensures { IsAddressIn given.now result.now }
{
    match given.strip_prefix("http://") {
        Some(address) => address,
        None => given,
    }
}

/// The values of the two options.
fn read_values(words: &[Text]) -> Option<(&str, &str)>
    ensures { MatchOption result ((name address : List ℕ) → SaysValues name address words.now → ⊥) (λ values. SaysValues values.0.now values.1.now words.now) }
{
    match only_option("--name", words) {
        Some(name) => Some((name, HERE)),
        None => both_options("--name", "--addr", words),
    }
}
