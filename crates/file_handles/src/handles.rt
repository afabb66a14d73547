ghost use Rattle.std.specs.Prelude.{◌≡◌, [], OnOk, OnErr};
ghost use Rattle.file_handles.specs.Handles.{file_of, is_open, least_free, opened, closed, without_session};

use byte_locks::FileKind;
use lf_base::NoMemory;
use std::alloc::Global;
use std::collections::BTreeMap;
use std::marker::Model;

/// The handles that sessions have open: for each session and number, the file that it is open on.
#[derive(Drop)]
pub struct Handles {
    inside: BTreeMap<(u64, u64), FileKind>,
}

impl Model for Handles {
    ghost use Rattle.file_handles.specs.Handles.{OpenHandles};

    ghost Value = { OpenHandles };

    ghost view = { λ h. h.inside.entries };
}

impl Handles {
    /// No handle is open.
    pub fn new(alloc: Global) -> Handles
        ensures { result ≡ [] }
    {
        Handles {
            inside: BTreeMap::new(alloc),
        }
    }

    /// The file that a session's handle is open on, if it is open.
    fn file_of(&self, session: u64, number: u64) -> Option<FileKind>
        ensures { result ≡ file_of self.now session number }
    {
        self.inside.get(&(session, number)).copied()
    }

    /// Whether a session's handle is open on a file.
    pub fn is_open(&self, session: u64, number: u64, file: FileKind) -> bool
        ensures { result ≡ is_open self.now session number file }
    {
        match self.file_of(session, number) {
            Some(other) => other == file,
            None => false,
        }
    }

    /// The least number from 1 to 1,024 of which the session has no handle, if there is one.
    #[tactic(auto, unfolding(crate::specs::Handles::least_free))]
    pub fn least_free(&self, session: u64) -> Option<u64>
        ensures { result ≡ least_free self.now session }
    {
        (1..1025u64).find(|number| self.file_of(session, *number).is_none())
    }

    /// Opens a handle of this number, which the session hasn't. After want of memory nothing changed.
    pub fn open(&mut self, session: u64, number: u64, file: FileKind) -> Result<(), NoMemory>
        ensures ok { OnOk result (self.new ≡ opened self.old session number file) }
        ensures err { OnErr result (self.new ≡ self.old) }
    {
        match self.inside.insert((session, number), file) {
            Ok(_replaced) => Ok(()),
            Err(_failed) => Err(NoMemory),
        }
    }

    /// Closes the session's handle of this number, if it is open.
    pub fn close(&mut self, session: u64, number: u64)
        ensures { self.new ≡ closed self.old session number }
    {
        self.inside.remove(&(session, number));
    }

    /// Closes all handles of the session.
    pub fn close_session(&mut self, session: u64)
        ensures { self.new ≡ without_session self.old session }
    {
        self.inside.retain(|handle, _file| handle.0 != session);
    }
}
