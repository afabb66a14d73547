ghost use Rattle.std.specs.Prelude.{◌≡◌};

use crate::holding::Held;
use lf_base::Bytes;
use lf_sqlite_pages::Change;
use std::marker::Model;

/// A write to the log that waits for its commit. The file keeps pages for it until it is finished or
/// forgotten.
#[derive(Drop)]
pub struct WaitingWrite {
    pub(crate) at: u64,
    pub(crate) bytes: Bytes,
    pub(crate) held: Held,
    pub(crate) before: u32,
    pub(crate) commit: u32,
}

impl Model for WaitingWrite {
    ghost use Rattle.database_under_log.specs.Staying.{WaitingWrite, waiting_code};

    ghost Value = { WaitingWrite };

    ghost coded = { waiting_code };

    ghost view = { λ w. record { at = w.at; bytes = w.bytes; added = w.held.added.items; same = w.held.same.items; before = w.before; commit = w.commit } };
}

/// What a write to the log commits, and the write, which waits for that.
#[derive(Drop)]
pub struct LogCommit {
    pub change: Change,
    pub write: WaitingWrite,
}

/// What a write to the log is.
#[derive(Drop)]
pub enum LogWrite {
    /// It is done, and the database under the log is as before.
    Stored,
    /// It waits for this commit, and file and log read as before.
    Waiting(LogCommit),
}
