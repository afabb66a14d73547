//! The folders that have the names of a disk's files.
use crate::name::FileName;
use std::fs::{self, File};
use std::io;
use std::rt::Files;

/// A folder and the folder of its transactions, open from the first on, so that a sync of the names in them opens nothing.
#[derive(Drop)]
pub(super) struct Places {
    folder: File,
    transactions: File,
}

impl Places {
    pub(super) fn open<R: Files<File = File>>(
        rt: &R,
        folder: &str,
        transactions: &str,
    ) -> io::Result<Places> {
        Ok(Places {
            folder: fs::open(rt, folder)?,
            transactions: fs::open(rt, transactions)?,
        })
    }

    pub(super) fn sync_all(&self) -> io::Result<()> {
        self.transactions.sync_all()?;
        self.folder.sync_all()
    }

    /// Syncs the folder that has this name.
    pub(super) fn sync(&self, name: FileName) -> io::Result<()> {
        if is_beside_transactions(name) {
            self.transactions.sync_all()
        } else {
            self.folder.sync_all()
        }
    }

    /// Syncs the folders that have these names, each once.
    pub(super) fn sync_both(&self, one: FileName, other: FileName) -> io::Result<()> {
        self.sync(one)?;
        if is_beside_transactions(one) == is_beside_transactions(other) {
            return Ok(());
        }
        self.sync(other)
    }
}

/// The staged file stands where it is renamed to most often, so that one folder has both names.
fn is_beside_transactions(name: FileName) -> bool {
    matches!(name, FileName::Ltx { .. } | FileName::Staged)
}
