//! The files of one database, what a request on them is answered over, and whether who asks holds a
//! lock that a rule asks for.
ghost use Rattle.std.specs.Prelude.{◌≡◌, IfOk, None, [], Some};
ghost use Rattle.file_view.specs.Acting.{is_actor, is_unnamed, writes};
ghost use Rattle.file_view.specs.Requests.{owner_of};
ghost use Rattle.file_view.specs.Roles.{is_primary, is_replica};
ghost use Rattle.file_view.specs.Served.{exists, host_size, file_size, has_committed_frames, waits};
ghost use Rattle.file_view.specs.Views.{new_view};
ghost use Rattle.database_file.specs.DatabaseFile.{KeepsNothing};

use crate::database::holding::Database;
use crate::journal::holding::Journal;
use byte_locks::{FileKind, LockId, LockTable, Owner};
use file_handles::Handles;
use lf_base::{Name, NoMemory, Pos, Text};
use shm_index::SharedMemory;
use std::alloc::Global;
use std::marker::Model;
use wal_watch::WalFile;

/// What a node is in its cluster.
#[derive(Clone, Copy, Debug, PartialEq, Eq)]
pub enum Role {
    /// It holds the lease, and its commits are the cluster's.
    Primary,
    /// It follows a primary.
    Replica,
    /// It follows a primary that has given it leave to make a commit.
    Halted,
}

impl Role {
    pub(crate) fn is_primary(self) -> bool
        ensures { result ≡ is_primary self }
    {
        matches!(self, Role::Primary)
    }

    pub(crate) fn is_replica(self) -> bool
        ensures { result ≡ is_replica self }
    {
        matches!(self, Role::Replica)
    }
}

/// What a request is answered over, beside the served files: who asks, what the node is, and the
/// shape of the committed image.
#[derive(Clone, Copy, Debug)]
pub struct Scene {
    pub session: u64,
    pub role: Role,
    pub page_size: u32,
    pub commit: u32,
    pub is_broken: bool,
}

impl Scene {
    /// The owner that a message of the session names.
    pub(crate) fn owner(&self, id: u64) -> Owner
        ensures { result ≡ owner_of self.now id }
    {
        Owner {
            session: self.session,
            id,
        }
    }
}

/// Whether an owner is the session's, and of this number where one is given.
fn is_actor(session: u64, given: Option<u64>, owner: Owner) -> bool
    ensures { result ≡ is_actor session given owner }
{
    match given {
        None => owner.session == session,
        Some(id) => owner.session == session && owner.id == id,
    }
}

/// Whether the acting owner of a message holds a lock for writing.
pub fn writes(locks: &LockTable, session: u64, given: Option<u64>, lock: LockId) -> bool
    ensures { result ≡ writes locks.now session given lock }
{
    match locks.writer(lock) {
        None => false,
        Some(owner) => is_actor(session, given, owner),
    }
}

/// Whether a message names no owner, of a session that speaks for many.
pub fn is_unnamed(locks: &LockTable, session: u64, given: Option<u64>) -> bool
    ensures { result ≡ is_unnamed locks.now session given }
{
    given.is_none() && locks.held_by(session, LockId::Many)
}

/// The served files of one database: the database file as far as it differs from the committed image,
/// the journal, the log, the shared memory, the locks and the handles.
#[derive(Drop)]
pub struct View {
    pub(crate) name: Name,
    pub(crate) database: Database,
    pub(crate) journal: Journal,
    pub(crate) log: WalFile,
    pub(crate) shared: SharedMemory,
    pub(crate) locks: LockTable,
    pub(crate) handles: Handles,
    /// The owner of the uncommitted pages, if there are any.
    pub(crate) writer: Option<Owner>,
    /// The owner whose uncommitted pages were dropped in the midst of its transaction.
    pub(crate) torn: Option<Owner>,
    pub(crate) position: Pos,
    pub(crate) host: Option<Text>,
}

impl Model for View {
    ghost use Rattle.std.specs.Coded.{codes};
    ghost use Rattle.database_file.specs.DatabaseFile.{database_code};
    ghost use Rattle.file_view.specs.Served.{Served};

    ghost Value = { Served };

    ghost coded = { Prim.hlevel (codes, database_code) };

    ghost use Rattle.file_view.specs.ServedParts.{served_of, IsKept};

    ghost view = { served_of };

    ghost invariant = { IsKept };
}

impl View {
    /// The files of a database of this name, before any request. The database file is the committed
    /// image, whatever that is.
    pub fn new(alloc: Global, name: &Name) -> Result<View, NoMemory>
        ensures value { IfOk result (λ view. view ≡ new_view name.now) }
        ensures fits { IfOk result (λ view. KeepsNothing view.database) }
    {
        Ok(View {
            name: name.copy()?,
            database: Database::new(alloc),
            journal: Journal::new(alloc),
            log: WalFile::new(alloc),
            shared: SharedMemory::new(alloc),
            locks: LockTable::new(alloc),
            handles: Handles::new(alloc),
            writer: None,
            torn: None,
            position: Pos { txid: 0, sum: 0 },
            host: None,
        })
    }

    /// The primary's host that it was told, if there is one.
    pub fn host(&self) -> Result<Option<Text>, NoMemory>
        ensures { IfOk result (λ host. host ≡ self.now.host) }
    {
        match &self.host {
            Some(host) => {
                let host = host.copy()?;
                Ok(Some(host))
            }
            None => Ok(None),
        }
    }

    /// From now on the position reads as this one, and the primary's name as this host's. It takes no
    /// memory.
    pub fn told(&mut self, position: Pos, host: Option<Text>)
        ensures { self.new ≡ record self.old { position = position; host = host } }
    {
        self.position = position;
        self.host = host;
    }

    /// From now on the position reads as this one. It takes no memory.
    pub fn told_position(&mut self, position: Pos)
        ensures { self.new ≡ record self.old { position = position } }
    {
        self.position = position;
    }

    /// Whether a file is there, at a node of this role.
    pub(crate) fn exists(&self, role: Role, file: FileKind) -> bool
        ensures { result ≡ exists self.now role file }
    {
        match file {
            FileKind::Database | FileKind::PosFile | FileKind::LockFile => true,
            FileKind::Journal => self.journal.len().is_some(),
            FileKind::Wal => self.log.len().is_some(),
            FileKind::Shm => self.shared.len().is_some(),
            FileKind::Primary => !role.is_primary() && self.host.is_some(),
        }
    }

    /// Whether the log has committed frames.
    pub(crate) fn has_committed_frames(&self) -> bool
        ensures { result ≡ has_committed_frames self.now }
    {
        self.log.committed_frames() > 0
    }

    /// Whether a request waits for its commit.
    pub fn waits(&self) -> bool
        ensures { result ≡ waits self.now }
    {
        self.database.waits() || self.journal.waits()
    }

    /// How many bytes the primary's name has, if it is known.
    fn host_size(&self) -> u64
        ensures { result ≡ host_size self.now.host }
    {
        match &self.host {
            Some(host) => host.bytes().len() as u64 + 1,
            None => 0,
        }
    }

    /// How many bytes a file has.
    pub(crate) fn file_size(&self, scene: &Scene, file: FileKind) -> u64
        ensures { result ≡ file_size self.now scene.now file }
    {
        match file {
            FileKind::Database => {
                let size = self.database.size_over(scene.page_size, scene.commit);
                u64::from(self.database.count_over(scene.commit)) * u64::from(size)
            }
            FileKind::Journal => self.journal.len().unwrap_or(0),
            FileKind::Wal => self.log.len().unwrap_or(0),
            FileKind::Shm => self.shared.len().unwrap_or(0),
            FileKind::PosFile => 34,
            FileKind::LockFile => 0,
            FileKind::Primary => self.host_size(),
        }
    }
}
