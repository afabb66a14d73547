//! What is noted of the followers of a primary.
ghost use Rattle.std.specs.Prelude.{◌≡◌, IfOk, Some};
ghost use Rattle.node_mount.specs.Hearing.{comes_line as comes_line_of, comes_note as comes_note_of, follower_at as follower_stands, gone_line as gone_line_of, sent_line as sent_line_of, sent_note as sent_note_of};
ghost use Rattle.node_mount.specs.declared.notes.NoteKind.TheVariants as kinds;

use crate::frame_notes::is_snapshot;
use crate::hearing::Hear;
use crate::notes::{Note, NoteKind, Notes};
use lf_base::{NoMemory, Pos, pos_text};
use node_core::{Answer, Ask};
use node_figures::{add, take_one};
use node_objects::Line;
use std::alloc::Global;
use std::cell::Cell;
use std::sync::Wait;

/// Notes what becomes of the follower of one session, if it is one's.
#[derive(Drop)]
pub struct FollowerNotes<'n, R> {
    rt: R,
    alloc: Global,
    notes: &'n Notes,
    /// A blank and its address, or nothing where that isn't known.
    who: Line,
    /// Where it stands, once it was answered.
    at: Option<Pos>,
    /// Whether it watches the node's events.
    watches: &'n Cell<bool>,
}

impl<'n, R: Wait> FollowerNotes<'n, R> {
    /// Nothing was asked.
    pub fn new(
        rt: R,
        alloc: Global,
        notes: &'n Notes,
        who: Line,
        watches: &'n Cell<bool>,
    ) -> FollowerNotes<'n, R> {
        FollowerNotes {
            rt,
            alloc,
            notes,
            who,
            at: None,
            watches,
        }
    }

    /// The session ended.
    pub fn end(&self) {
        let cells = self.notes.tally.cells();
        if self.watches.get() {
            take_one(&cells.watchers);
        }
        if let Some(at) = self.at {
            take_one(&cells.followers);
            self.notes
                .put(&self.rt, gone_note(self.alloc, &self.who, at));
        }
    }
}

impl<R: Wait> Hear for FollowerNotes<'_, R> {
    fn hear(&mut self, ask: &Ask, answer: &Answer) {
        let at = follower_at(self.at, ask, answer);
        let comes = comes_note(self.alloc, &self.who, self.at, at, ask);
        self.notes.put(&self.rt, comes);
        self.count(ask, answer, at.is_some());
        let sent = sent_note(self.alloc, &self.who, ask, answer);
        self.notes.put(&self.rt, sent);
        self.at = at;
    }
}

impl<R: Wait> FollowerNotes<'_, R> {
    /// Counts it, and what it is sent.
    fn count(&self, ask: &Ask, answer: &Answer, follows: bool) {
        let cells = self.notes.tally.cells();
        if follows && self.at.is_none() {
            add(&cells.followers, 1);
        }
        if matches!(ask, Ask::Watch { .. }) && !self.watches.replace(true) {
            add(&cells.watchers, 1);
        }
        if let (Ask::Hello { .. }, Answer::Item { ltx, .. }) = (ask, answer) {
            add(&cells.sent_bytes, ltx.as_slice().len() as u64);
            if is_snapshot(ltx) {
                add(&cells.snapshots, 1);
            }
        }
    }
}

/// Where a follower stands that is answered so.
fn follower_at(before: Option<Pos>, ask: &Ask, answer: &Answer) -> Option<Pos>
    ensures { result ≡ follower_stands before ask.now answer.now }
{
    match (ask, answer) {
        (Ask::Hello { .. }, Answer::Item { after, .. }) => Some(*after),
        (Ask::Hello { .. }, Answer::Gone) => Some(Pos { txid: 0, sum: 0 }),
        (Ask::Hello { pos, .. }, Answer::Level(_)) => Some(*pos),
        _ => before,
    }
}

/// What is noted of one that stood and stands there.
fn comes_note(
    alloc: Global,
    who: &Line,
    before: Option<Pos>,
    after: Option<Pos>,
    ask: &Ask,
) -> Result<Option<Note>, NoMemory>
    ensures { IfOk result (λ note. note ≡ comes_note_of who.now before after ask.now) }
{
    match (before, after, ask) {
        (None, Some(_), Ask::Hello { pos, .. }) => {
            let line = at_line(alloc, who, *pos)?;
            Ok(Some(Note {
                kind: NoteKind::Comes,
                line,
            }))
        }
        _ => Ok(None),
    }
}

/// What is noted of what it is sent.
fn sent_note(
    alloc: Global,
    who: &Line,
    ask: &Ask,
    answer: &Answer,
) -> Result<Option<Note>, NoMemory>
    ensures { IfOk result (λ note. note ≡ sent_note_of who.now ask.now answer.now) }
{
    match (ask, answer) {
        (Ask::Hello { pos, .. }, Answer::Item { ltx, after }) if is_snapshot(ltx) => {
            let line = sent_line(alloc, who, *after, *pos)?;
            Ok(Some(Note {
                kind: NoteKind::Snapshot,
                line,
            }))
        }
        _ => Ok(None),
    }
}

fn at_line(alloc: Global, who: &Line, at: Pos) -> Result<Line, NoMemory>
    ensures { IfOk result (λ line. line ≡ comes_line_of who.now at) }
{
    let mut line = Line::of(alloc, b"follower")?;
    line.put_line(who)?;
    line.put(b" at ")?;
    line.put(&pos_text(at))?;
    Ok(line)
}

fn sent_line(alloc: Global, who: &Line, to: Pos, from: Pos) -> Result<Line, NoMemory>
    ensures { IfOk result (λ line. line ≡ sent_line_of who.now to from) }
{
    let mut line = Line::of(alloc, b"snapshot for the follower")?;
    line.put_line(who)?;
    line.put(b": at ")?;
    line.put(&pos_text(to))?;
    line.put(b" in place of ")?;
    line.put(&pos_text(from))?;
    Ok(line)
}

/// It is gone.
fn gone_note(alloc: Global, who: &Line, at: Pos) -> Result<Option<Note>, NoMemory>
    ensures { IfOk result (λ note. note ≡ Some (record { kind = kinds.Gone; line = gone_line_of who.now at })) }
{
    let mut line = at_line(alloc, who, at)?;
    line.put(b" is gone")?;
    Ok(Some(Note {
        kind: NoteKind::Gone,
        line,
    }))
}
