//! What is noted of the frames that a replica is sent.
ghost use Rattle.std.specs.Prelude.{◌≡◌, ◌==◌, ◌++◌, IfOk, None, Some, if◌then◌else◌};
ghost use Rattle.node_mount.specs.Hearing.{dropped_line as dropped_line_of, installed_line as installed_line_of, is_late as is_late_at, is_snapshot as is_snapshot_of, lock_name as name_of, replica_after, replica_note, waits_after, waits_line as waits_line_of, waits_note as waits_note_at};
ghost use Rattle.node_mount.specs.declared.notes.NoteKind.TheVariants as kinds;

use crate::hearing::Hear;
use crate::notes::{Note, NoteKind, Notes};
use byte_locks::LockId;
use lf_base::{Bytes, NoMemory, Pos, be64_at, pos_text};
use node_core::{Answer, Ask};
use node_figures::{Tally, add};
use node_objects::Line;
use std::alloc::Global;
use std::sync::Wait;

/// For how many milliseconds a frame may wait before that is told.
const SECOND: u64 = 1000;

/// What is known of a replica.
#[derive(Clone, Copy, Debug, PartialEq, Eq)]
pub struct Replica {
    /// Where it stands.
    pub pos: Pos,
    pub waits: Waits,
}

/// Whether a frame is held back.
#[derive(Clone, Copy, Debug, PartialEq, Eq)]
pub enum Waits {
    Not,
    /// From this moment on.
    Since(u64),
    /// For so long that it was told.
    Told,
}

impl Waits {
    /// Whether that it is held back, at this moment too, is told now.
    fn is_late(self, now: u64) -> bool
        ensures { result ≡ is_late_at self now }
    {
        match self {
            Waits::Since(start) => now.saturating_sub(start) > SECOND,
            Waits::Not | Waits::Told => false,
        }
    }

    /// It is held back at this moment.
    fn after(self, now: u64) -> Waits
        ensures { result ≡ waits_after self now }
    {
        match self {
            Waits::Not => Waits::Since(now),
            Waits::Since(start) => {
                if now.saturating_sub(start) > SECOND {
                    Waits::Told
                } else {
                    Waits::Since(start)
                }
            }
            Waits::Told => Waits::Told,
        }
    }

    fn note(self, alloc: Global, now: u64, lock: LockId) -> Result<Option<Note>, NoMemory>
        ensures { IfOk result (λ note. note ≡ waits_note_at self now lock) }
    {
        if !self.is_late(now) {
            return Ok(None);
        }
        let line = waits_line(alloc, lock)?;
        Ok(Some(Note {
            kind: NoteKind::Waits,
            line,
        }))
    }
}

impl Replica {
    /// Nothing is known.
    pub fn new() -> Replica {
        Replica {
            pos: Pos { txid: 0, sum: 0 },
            waits: Waits::Not,
        }
    }

    /// What is noted of an answer.
    pub fn note(&self, alloc: Global, ask: &Ask, answer: &Answer) -> Result<Option<Note>, NoMemory>
        ensures { IfOk result (λ note. note ≡ replica_note self.now ask.now answer.now) }
    {
        match (ask, answer) {
            (Ask::Frame { bytes, .. }, Answer::Applied(to)) => {
                installed_note(alloc, is_snapshot(bytes), *to, self.pos)
            }
            (Ask::Drop { .. }, Answer::Applied(_)) => dropped_note(alloc, self.pos),
            (Ask::Frame { now, .. }, Answer::Held(lock)) => self.waits.note(alloc, *now, *lock),
            (Ask::Drop { now }, Answer::Held(lock)) => self.waits.note(alloc, *now, *lock),
            _ => Ok(None),
        }
    }

    /// What is known of it after that.
    pub fn after(self, ask: &Ask, answer: &Answer) -> Replica
        ensures { result ≡ replica_after self ask.now answer.now }
    {
        match (ask, answer) {
            (_, Answer::At(here)) => Replica {
                pos: here.pos,
                waits: Waits::Not,
            },
            (_, Answer::Applied(pos)) => Replica {
                pos: *pos,
                waits: Waits::Not,
            },
            (Ask::Frame { now, .. }, Answer::Held(_)) => self.held(*now),
            (Ask::Drop { now }, Answer::Held(_)) => self.held(*now),
            _ => self,
        }
    }

    /// A frame is held back at this moment.
    fn held(self, now: u64) -> Replica
        ensures { result ≡ record self { waits = waits_after self.waits now } }
    {
        Replica {
            pos: self.pos,
            waits: self.waits.after(now),
        }
    }
}

/// Whether the bytes are those of a file that holds the whole database.
pub fn is_snapshot(bytes: &Bytes) -> bool
    ensures { result ≡ is_snapshot_of bytes.now }
{
    let bytes = bytes.as_slice();
    bytes.len() > 23 && be64_at(bytes, 16) == 1
}

fn installed_note(
    alloc: Global,
    snapshot: bool,
    to: Pos,
    from: Pos,
) -> Result<Option<Note>, NoMemory>
    ensures { IfOk result (λ note. note ≡ (if snapshot then Some (record { kind = kinds.Snapshot; line = installed_line_of to from }) else None)) }
{
    if !snapshot {
        return Ok(None);
    }
    let mut line = Line::of(alloc, b"snapshot installed: at ")?;
    line.put(&pos_text(to))?;
    line.put(b" in place of ")?;
    line.put(&pos_text(from))?;
    Ok(Some(Note {
        kind: NoteKind::Snapshot,
        line,
    }))
}

fn dropped_note(alloc: Global, from: Pos) -> Result<Option<Note>, NoMemory>
    ensures { IfOk result (λ note. note ≡ (if from.txid == 0 then None else Some (record { kind = kinds.Drop; line = dropped_line_of from }))) }
{
    if from.txid == 0 {
        return Ok(None);
    }
    let mut line = Line::of(alloc, b"database dropped: it was at ")?;
    line.put(&pos_text(from))?;
    Ok(Some(Note {
        kind: NoteKind::Drop,
        line,
    }))
}

fn waits_line(alloc: Global, lock: LockId) -> Result<Line, NoMemory>
    ensures { IfOk result (λ line. line ≡ waits_line_of lock) }
{
    let mut line = Line::of(alloc, b"frame waits: a client holds ")?;
    line.put(lock_name(lock))?;
    Ok(line)
}

fn lock_name(lock: LockId) -> &'static [u8]
    ensures { result.now ≡ name_of lock }
{
    match lock {
        LockId::Pending => b"PENDING",
        LockId::Reserved => b"RESERVED",
        LockId::Shared => b"SHARED",
        LockId::Write => b"WRITE",
        LockId::Ckpt => b"CKPT",
        LockId::Recover => b"RECOVER",
        LockId::Read0 => b"READ0",
        LockId::Read1 => b"READ1",
        LockId::Read2 => b"READ2",
        LockId::Read3 => b"READ3",
        LockId::Read4 => b"READ4",
        LockId::Dms => b"DMS",
        LockId::Halt => b"HALT",
        LockId::Many => b"MANY",
    }
}

/// Counts what became of a frame: its lag is the time from its commit to its apply, each by its own node's clock.
fn count_frame(tally: &Tally, ask: &Ask, answer: &Answer) {
    match (ask, answer) {
        (Ask::Frame { now, bytes }, Answer::Applied(_)) => {
            if is_snapshot(bytes) {
                add(&tally.cells().snapshots, 1);
            }
            if let Some(stamp) = stamp_of(bytes) {
                tally.lag(now.saturating_sub(stamp));
            }
        }
        (Ask::Frame { .. } | Ask::Drop { .. }, Answer::Held(_)) => {
            add(&tally.cells().held_frames, 1);
        }
        _ => {}
    }
}

/// The moment that the head of a file says, in milliseconds since the Unix epoch.
fn stamp_of(bytes: &Bytes) -> Option<u64> {
    let bytes = bytes.as_slice();
    if bytes.len() < 40 {
        return None;
    }
    Some(be64_at(bytes, 32))
}

/// Notes what comes of frames.
#[derive(Drop)]
pub struct FrameNotes<'n, R> {
    pub rt: R,
    pub alloc: Global,
    pub notes: &'n Notes,
    pub replica: Replica,
}

impl<R: Wait> Hear for FrameNotes<'_, R> {
    fn hear(&mut self, ask: &Ask, answer: &Answer) {
        count_frame(&self.notes.tally, ask, answer);
        let note = self.replica.note(self.alloc, ask, answer);
        self.notes.put(&self.rt, note);
        self.replica = self.replica.after(ask, answer);
    }
}
