//! Notes that come again are counted.
ghost use Rattle.std.specs.Prelude.{◌≡◌, ◌↔◌, [], IfOk, IsTrue, MatchOption};
ghost use Rattle.node_mount.specs.Noting.{AreOthers, BeginsWith, IsDue, IsNext, IsOf, IsToldFirst, IsToldOf, IsWith};

use crate::notes::{Note, NoteKind};
use lf_base::NoMemory;
use node_objects::Line;
use std::alloc::Global;

/// For how many milliseconds the same note is only counted.
const MINUTE: u64 = 60_000;

/// Every kind, in the order in which what came again is told.
pub const KINDS: [NoteKind; 10] = [
    NoteKind::Ends,
    NoteKind::Begins,
    NoteKind::Snapshot,
    NoteKind::Drop,
    NoteKind::Waits,
    NoteKind::Gone,
    NoteKind::Comes,
    NoteKind::Unmounts,
    NoteKind::Mounts,
    NoteKind::Lease,
];

/// The note of a kind that was told last: when, and how often the same came since then.
#[derive(Drop)]
pub struct Repeats {
    last: Line,
    since: u64,
    count: u64,
}

impl Repeats {
    /// None was told.
    pub fn new(alloc: Global) -> Repeats
        ensures { result ≡ record { last = []; since = 0; count = 0 } }
    {
        Repeats {
            last: Line::new(alloc),
            since: 0,
            count: 0,
        }
    }

    /// What is told of a note at this moment: itself, unless it is the one told last, which is counted.
    pub fn next(&mut self, alloc: Global, line: Line, now: u64) -> Result<Option<Line>, NoMemory>
        ensures { IfOk result (λ told. IsNext self.old line now told self.new) }
    {
        if line.text() == self.last.text() {
            self.count = self.count.saturating_add(1);
            return Ok(None);
        }
        let told = line.copy(alloc)?;
        self.last = line;
        self.since = now;
        self.count = 0;
        Ok(Some(told))
    }

    /// What is told of the note told last, a minute after that: how often it came since.
    pub fn due(&mut self, alloc: Global, now: u64) -> Result<Option<Line>, NoMemory>
        ensures { IfOk result (λ told. IsDue self.old now told self.new) }
    {
        if self.count == 0 || now.saturating_sub(self.since) < MINUTE {
            return Ok(None);
        }
        let told = counted_line(alloc, &self.last, self.count)?;
        self.since = now;
        self.count = 0;
        Ok(Some(told))
    }
}

/// A note that was told, and those that came again since.
#[derive(Drop)]
pub struct Told {
    kind: NoteKind,
    repeats: Repeats,
}

impl Told {
    /// Whether a note is counted with it: one of its kind, and of endpoints that give no answer one of the same.
    fn is_of(&self, kind: NoteKind, line: &Line) -> bool
        ensures { IsTrue result ↔ IsOf self.now kind line.now }
    {
        self.kind == kind && (kind != NoteKind::Lease || line.text() == self.repeats.last.text())
    }
}

/// What was told of notes: the last of each kind, and of endpoints that give no answer each, since several fail in turn.
#[derive(Drop)]
pub struct Repeated {
    each: Vec<Told>,
}

impl Repeated {
    pub fn new(alloc: Global) -> Repeated {
        Repeated {
            each: Vec::new(alloc),
        }
    }

    /// How many.
    pub fn count(&self) -> usize {
        self.each.len()
    }

    /// What is told of a note at this moment.
    pub fn next(&mut self, alloc: Global, note: Note, now: u64) -> Result<Option<Line>, NoMemory>
        ensures { IfOk result (λ told. IsToldOf self.old.each.items note now told self.new.each.items) }
    {
        let Note { kind, line } = note;
        match self.place_of(kind, &line) {
            Some(place) => self.each[place].repeats.next(alloc, line, now),
            None => self.next_new(alloc, kind, line, now),
        }
    }

    /// Where the one stands that such a note is counted with.
    fn place_of(&self, kind: NoteKind, line: &Line) -> Option<usize>
        ensures { MatchOption result (AreOthers self.now.each.items kind line.now) (λ place. IsWith self.now.each.items place kind line.now) }
    {
        for place in 0..self.each.len() {
            if self.each[place].is_of(kind, line) {
                return Some(place);
            }
        }
        None
    }

    /// What is told of a note that is counted with none.
    fn next_new(
        &mut self,
        alloc: Global,
        kind: NoteKind,
        line: Line,
        now: u64,
    ) -> Result<Option<Line>, NoMemory>
        ensures { IfOk result (λ told. IsToldFirst self.old.each.items kind line now told self.new.each.items) }
    {
        let mut repeats = Repeats::new(alloc);
        let told = repeats.next(alloc, line, now)?;
        self.each.push(Told { kind, repeats })?;
        Ok(told)
    }

    /// What is told of the one at this place, if it is of this kind, a minute after it was told.
    pub fn due(
        &mut self,
        alloc: Global,
        kind: NoteKind,
        place: usize,
        now: u64,
    ) -> Result<Option<Line>, NoMemory> {
        match self.each.get_mut(place) {
            Some(told) if told.kind == kind => told.repeats.due(alloc, now),
            _ => Ok(None),
        }
    }
}

/// A line, and how often it came again.
fn counted_line(alloc: Global, line: &Line, count: u64) -> Result<Line, NoMemory>
    ensures { IfOk result (λ told. BeginsWith told line.now) }
{
    let mut told = line.copy(alloc)?;
    if count > 1 {
        let times = format!(in alloc; ", {count} more times")?;
        told.put(times.as_bytes())?;
    }
    Ok(told)
}
