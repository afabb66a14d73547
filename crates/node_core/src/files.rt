ghost use Rattle.std.specs.Prelude.{◌≡◌};

use std::fmt;
use std::marker::Model;
use txn_log::Entry;

/// Files of a log, in their order: what a contract sees as a list. None of its calls takes memory.
#[derive(Drop)]
pub struct Files {
    inside: Vec<Entry>,
}

impl Model for Files {
    ghost use Rattle.std.specs.Prelude.{List};
    ghost use Rattle.txn_log.specs.declared.entry.Entry.{Entry};

    ghost Value = { List Entry };

    ghost view = { λ f. f.inside.items };
}

impl Files {
    pub fn of(files: Vec<Entry>) -> Files
        ensures { result ≡ files.items }
    {
        Files { inside: files }
    }

    pub fn as_slice(&self) -> &[Entry]
        ensures { result.now ≡ self.now }
    {
        self.inside.as_slice()
    }
}

/// Prints the list.
impl fmt::Debug for Files {
    fn fmt<W: fmt::Write>(&self, f: &mut fmt::Formatter<W>) -> fmt::Result {
        fmt::Debug::fmt(&self.as_slice(), f)
    }
}
