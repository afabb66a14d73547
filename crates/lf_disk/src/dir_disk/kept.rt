//! The files that stay open.
ghost use Rattle.lf_disk.specs.Kept.{Closes};

use crate::name::FileName;
use std::fs::File;

/// The handles of the database file and of the staged file, each from its first use on. A handle
/// belongs to a file, not to its name: where the name goes, the handle goes with it.
#[derive(Drop)]
pub(super) struct Kept {
    pub database: Option<File>,
    pub staged: Option<File>,
}

impl Kept {
    pub(super) fn new() -> Kept {
        Kept {
            database: None,
            staged: None,
        }
    }

    /// The handle that is kept of a name.
    pub(super) fn get(&self, name: FileName) -> Option<&File> {
        match name {
            FileName::Database => self.database.as_ref(),
            FileName::Staged => self.staged.as_ref(),
            _ => None,
        }
    }

    /// Takes out the handle that is kept of a name.
    pub(super) fn take(&mut self, name: FileName) -> Option<File>
        ensures { Closes name self.old self.new }
    {
        match name {
            FileName::Database => self.database.take(),
            FileName::Staged => self.staged.take(),
            _ => None,
        }
    }

    /// Keeps the handle of the database file or of the staged file. That of another file is closed.
    pub(super) fn keep(&mut self, name: FileName, file: File) {
        match name {
            FileName::Database => self.database = Some(file),
            FileName::Staged => self.staged = Some(file),
            _ => {}
        }
    }
}
