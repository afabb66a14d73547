//! What the jobs of a node note, for the one that tells lines.
use crate::stream_notes::{begins_line, ends_line, not_reached_line};
use crate::to_notes::{no_answer_line, waits_line};
use lf_base::{NoMemory, Text};
use node_figures::Tally;
use node_objects::Line;
use replica_apply::FollowEnd;
use std::alloc::Global;
use std::sync::{Arc, Mutex, Wait};

/// How many notes wait at most.
pub const MOST: usize = 64;

/// What a job notes.
#[derive(Drop)]
pub struct Note {
    /// Of which kind: each kind is told by itself.
    pub kind: NoteKind,
    pub line: Line,
}

#[derive(Clone, Copy, Debug, PartialEq, Eq)]
pub enum NoteKind {
    /// A stream begins.
    Begins,
    /// A stream ends, or none begins.
    Ends,
    /// A snapshot is installed, or goes to a follower.
    Snapshot,
    /// The database is dropped.
    Drop,
    /// A frame is held back.
    Waits,
    /// A follower comes.
    Comes,
    /// It is gone.
    Gone,
    /// The program is started that mounts the node's files.
    Mounts,
    /// It ended, or can't be started.
    Unmounts,
    /// An endpoint of a cluster that grants leases gave no answer, and several fail in turn; or a node waits before it asks for one.
    Lease,
}

/// Notes that wait, in the order in which they came. Its copies share them.
#[derive(Drop)]
pub struct Notes {
    alloc: Global,
    notes: Arc<Mutex<Vec<Note>>, Global>,
    /// What the jobs count.
    pub tally: Tally,
}

impl Notes {
    pub fn new(alloc: Global, tally: Tally) -> Result<Notes, NoMemory> {
        let notes = Arc::new(alloc, Mutex::new(Vec::new(alloc)))?;
        Ok(Notes {
            alloc,
            notes,
            tally,
        })
    }

    /// A second hold of the same notes.
    pub fn another(&self) -> Result<Notes, NoMemory> {
        let notes = Arc::try_clone(&self.notes)?;
        Ok(Notes {
            alloc: self.alloc,
            notes,
            tally: self.tally.another()?,
        })
    }

    /// A primary was dialed at this address, if there is one, and reached or not.
    pub fn dialed(&self, rt: &impl Wait, address: &Option<Text>, reached: bool) {
        match address {
            Some(address) if reached => {
                self.put_line(rt, NoteKind::Begins, begins_line(self.alloc, address));
            }
            Some(address) => {
                self.put_line(rt, NoteKind::Ends, not_reached_line(self.alloc, address));
            }
            None => {}
        }
    }

    /// A stream ended so.
    pub fn ended(&self, rt: &impl Wait, end: FollowEnd) {
        self.put_line(rt, NoteKind::Ends, ends_line(self.alloc, end));
    }

    /// The endpoint of a cluster at this address gave no answer.
    pub fn no_answer(&self, rt: &impl Wait, address: &Text) {
        self.put_line(rt, NoteKind::Lease, no_answer_line(self.alloc, address));
    }

    /// A candidate without a database waits before it asks to be primary.
    pub fn waits_for_lease(&self, rt: &impl Wait) {
        self.put_line(rt, NoteKind::Lease, waits_line(self.alloc));
    }

    fn put_line(&self, rt: &impl Wait, kind: NoteKind, line: Result<Line, NoMemory>) {
        if let Ok(line) = line {
            self.put(rt, Ok(Some(Note { kind, line })));
        }
    }

    /// Adds a note, if there is one, while fewer than 64 wait and there was memory for it.
    pub fn put(&self, rt: &impl Wait, note: Result<Option<Note>, NoMemory>) {
        let Ok(Some(note)) = note else {
            return;
        };
        let mut notes = self.notes.lock(rt);
        if notes.len() < MOST {
            let _ = notes.push(note);
        }
    }

    /// The note that waits longest.
    pub fn take(&self, rt: &impl Wait) -> Option<Note> {
        let mut notes = self.notes.lock(rt);
        if notes.is_empty() {
            return None;
        }
        Some(notes.remove(0))
    }
}
