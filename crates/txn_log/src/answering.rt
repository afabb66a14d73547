//! Where a store stands, and what it owes a follower's position.
ghost use Rattle.std.specs.Prelude.{◌≡◌, ◌≤◌, [], IsTrue, IfSome, IfNone, ◌≢◌, ◌<◌, true, false, get_or, length, IfOk, IfErr, Some};
ghost use Rattle.txn_log.specs.Answering.{IsFirstBehind, IsLacking, Answers, AnswersBy, AnswersUnknown};
ghost use Rattle.txn_log.specs.Store.{state_of, end_of_entries};
ghost use Rattle.page_checksum.specs.Sums.{flagged, joined};
ghost use Rattle.world_laws.specs.Store.{at};
ghost use Rattle.lf_disk.specs.History.{now};
ghost use Rattle.txn_log.specs.declared.entry.Entry.{Entry as EntryOf};
ghost use Rattle.txn_log.specs.Fields.{fields_of, history_of};
ghost use Rattle.txn_log.specs.LastFile.{seal_under, IsOf, IsWithout, HasFile, SaysLast, IsCompared, Doubts, IsToCompare, LooksUp};
ghost use Rattle.txn_log.specs.Looking.{IsLookedAt};

use crate::entry::Entry;
use crate::fault::StoreFault;
use crate::reading::read_seal;
use crate::store::Store;
use lf_base::Pos;
use lf_disk::{Disk, FileName};
use world_laws::LastFile;

/// The place of the first file that follows a position.
fn first_behind(entries: &[Entry], position: Pos) -> Option<usize>
    ensures some { IfSome result (IsFirstBehind entries.now position) }
    ensures none { IfNone result (IsLacking entries.now position) }
{
    for place in 0..entries.len() {
        if entries[place].pre == position {
            return Some(place);
        }
    }
    None
}

impl<D: Disk> Store<D> {
    /// Whether the database was dropped and nothing was committed since.
    pub fn is_dropped(&self) -> bool
        ensures value { result ≡ self.now.dropped }
        ensures told { IsTrue (D.honest self.now.disk) → result ≡ (state_of (D.history self.now.disk)
            self.now.page_size self.now.commit self.now.entries.items self.now.dropped self.now.broken self.now.whole).dropped }
        ensures empty { IsTrue result → self.now.entries.items ≡ [] }
    {
        self.dropped
    }

    /// What a follower at this position is owed: that the database was dropped, where the position is
    /// not (0, 0); else nothing where the log is empty or ends there, the files from the first that
    /// follows it, or the whole database.
    fn answer_known(&self, position: Pos) -> Answer
        ensures { Answers self.now.entries.items self.now.dropped position result }
    {
        if self.dropped && position != NOWHERE {
            return Answer::Gone;
        }
        if self.entries.is_empty() || position == self.pos() {
            return Answer::Level;
        }
        match first_behind(self.entries.as_slice(), position) {
            Some(first) => Answer::Files { first },
            None => Answer::Snapshot,
        }
    }
    /// The same of one whose position counts as unknown: the whole database, where there is one.
    fn answer_unknown(&self, position: Pos) -> Answer
        ensures { AnswersUnknown self.now.entries.items self.now.dropped position result }
    {
        if self.dropped && position != NOWHERE {
            return Answer::Gone;
        }
        if self.entries.is_empty() {
            return Answer::Level;
        }
        Answer::Snapshot
    }

    /// What a follower at this position is owed, by whether it counts as unknown.
    pub fn answer(&self, position: Pos, doubted: bool) -> Answer
        ensures { AnswersBy doubted self.now.entries.items self.now.dropped position result }
    {
        if doubted {
            self.answer_unknown(position)
        } else {
            self.answer_known(position)
        }
    }
}

/// What a follower at a position is owed.
#[derive(Clone, Copy, Debug, PartialEq, Eq)]
pub enum Answer {
    /// Nothing.
    Level,
    /// The files of the log from this place on.
    Files { first: usize },
    /// That the database was dropped.
    Gone,
    /// The whole database: the log does not know the position.
    Snapshot,
}

/// The position of a database that was never written.
pub const NOWHERE: Pos = Pos { txid: 0, sum: 0 };

/// The position behind the last file.
fn end_of(entries: &[Entry]) -> Pos
    ensures { result ≡ end_of_entries entries.now }
{
    match entries.last() {
        Some(last) => last.post,
        None => NOWHERE,
    }
}

impl<D: Disk> Store<D> {
    /// The position: the number of the last transaction, and the sum of the pages after it. It is
    /// that of the log over an honest disk, and over any disk the sum of the table of sums.
    pub fn pos(&self) -> Pos
        ensures value { result ≡ end_of_entries self.now.entries.items }
        ensures told { IsTrue (D.honest self.now.disk) → result ≡ at (state_of (D.history self.now.disk)
            self.now.page_size self.now.commit self.now.entries.items self.now.dropped self.now.broken self.now.whole) }
        ensures summed { self.now.entries.items ≢ [] → result.sum ≡ flagged (joined self.now.sums.sums) }
    {
        end_of(self.entries.as_slice())
    }
}

/// Whether a file is of just these transactions.
fn is_of(entry: &Entry, min: u64, max: u64) -> bool
    ensures yes { result ≡ true → (entry.now.min ≡ min) × (entry.now.max ≡ max) }
    ensures no { result ≡ false → entry.now.min ≡ min → entry.now.max ≡ max → ⊥ }
{
    entry.min == min && entry.max == max
}

/// The place of the file of just these transactions.
fn place_of(entries: &[Entry], min: u64, max: u64) -> Option<usize>
    ensures some { IfSome result (IsOf entries.now min max) }
    ensures none { IfNone result (IsWithout entries.now min max) }
{
    for place in 0..entries.len() {
        if is_of(&entries[place], min, max) {
            return Some(place);
        }
    }
    None
}

/// Whether two checksums differ.
fn is_other(sum: u64, other: u64) -> bool
    ensures yes { result ≡ true → sum ≢ other }
    ensures no { result ≡ false → sum ≡ other }
{
    sum != other
}

impl<D: Disk> Store<D> {
    /// The checksum of the file at a place of the log. The store stays as it is.
    fn seal_at(&mut self, at: usize) -> Result<u64, StoreFault>
        requires { at < length self.old.entries.items }
        ensures seal { IsTrue (D.honest self.old.disk) → IfOk result (λ sum. (d : EntryOf)
            → sum ≡ seal_under (now (D.history self.old.disk)) (get_or self.old.entries.items at d).min (get_or self.old.entries.items at d).max) }
        ensures cause { LooksUp self.old.broken (D.faults self.old.disk) result (D.faults self.new.disk) }
        ensures looked { IsLookedAt (history_of self.old) (fields_of self.old) (history_of self.new) (fields_of self.new) }
        ensures honest { D.honest self.new.disk ≡ D.honest self.old.disk }
    {
        if self.broken {
            return Err(StoreFault::Broken);
        }
        let entry = self.entries[at];
        let name = FileName::Ltx {
            min: entry.min,
            max: entry.max,
        };
        match read_seal(&mut self.disk, name) {
            Ok(sum) => Ok(sum),
            Err(_) => Err(StoreFault::Disk),
        }
    }

    /// Whether the file at this place, of just these transactions, has another checksum.
    fn differs(&mut self, at: usize, min: u64, max: u64, sum: u64) -> Result<bool, StoreFault>
        requires { IsOf self.old.entries.items min max at }
        ensures compared { IfOk result (IsCompared (D.honest self.old.disk) (now (D.history self.old.disk)) self.old.entries.items min max sum) }
        ensures cause { LooksUp self.old.broken (D.faults self.old.disk) result (D.faults self.new.disk) }
        ensures looked { IsLookedAt (history_of self.old) (fields_of self.old) (history_of self.new) (fields_of self.new) }
        ensures honest { D.honest self.new.disk ≡ D.honest self.old.disk }
    {
        match self.seal_at(at) {
            Ok(seal) => Ok(is_other(seal, sum)),
            Err(fault) => Err(fault),
        }
    }

    /// Whether the log has a file of just these transactions with another checksum.
    fn has_another(&mut self, min: u64, max: u64, sum: u64) -> Result<bool, StoreFault>
        ensures compared { IfOk result (IsCompared (D.honest self.old.disk) (now (D.history self.old.disk)) self.old.entries.items min max sum) }
        ensures cause { LooksUp self.old.broken (D.faults self.old.disk) result (D.faults self.new.disk) }
        ensures there { IfErr result (λ why. HasFile self.old.entries.items min max) }
        ensures looked { IsLookedAt (history_of self.old) (fields_of self.old) (history_of self.new) (fields_of self.new) }
        ensures honest { D.honest self.new.disk ≡ D.honest self.old.disk }
    {
        match place_of(self.entries.as_slice(), min, max) {
            Some(at) => self.differs(at, min, max, sum),
            None => Ok(false),
        }
    }

    /// Whether a follower's position counts as unknown by what it says of its last file: it says so, or
    /// the log has a file of just these transactions with another checksum. The store stays as it is.
    pub fn doubts(&mut self, last: Option<LastFile>) -> Result<bool, StoreFault>
        ensures doubts { IfOk result (Doubts (D.honest self.old.disk) (now (D.history self.old.disk)) self.old.entries.items last) }
        ensures cause { LooksUp self.old.broken (D.faults self.old.disk) result (D.faults self.new.disk) }
        ensures compared { IfErr result (λ why. IsToCompare self.old.entries.items last) }
        ensures looked { IsLookedAt (history_of self.old) (fields_of self.old) (history_of self.new) (fields_of self.new) }
        ensures honest { D.honest self.new.disk ≡ D.honest self.old.disk }
    {
        match last {
            None => Ok(false),
            Some(said) => self.doubts_said(said),
        }
    }

    /// The same of one that says this.
    fn doubts_said(&mut self, said: LastFile) -> Result<bool, StoreFault>
        ensures doubts { IfOk result (Doubts (D.honest self.old.disk) (now (D.history self.old.disk)) self.old.entries.items (Some said)) }
        ensures cause { LooksUp self.old.broken (D.faults self.old.disk) result (D.faults self.new.disk) }
        ensures compared { IfErr result (λ why. IsToCompare self.old.entries.items (Some said)) }
        ensures looked { IsLookedAt (history_of self.old) (fields_of self.old) (history_of self.new) (fields_of self.new) }
        ensures honest { D.honest self.new.disk ≡ D.honest self.old.disk }
    {
        match said {
            LastFile::Unknown => Ok(true),
            LastFile::File { min, max, sum } => self.has_another(min, max, sum),
        }
    }

    /// The last file of the log, where it has one. The store stays as it is.
    pub fn last_file(&mut self) -> Result<Option<LastFile>, StoreFault>
        ensures says { IfOk result (SaysLast (D.honest self.old.disk) (now (D.history self.old.disk)) self.old.entries.items) }
        ensures cause { LooksUp self.old.broken (D.faults self.old.disk) result (D.faults self.new.disk) }
        ensures some { IfErr result (λ why. self.old.entries.items ≢ []) }
        ensures looked { IsLookedAt (history_of self.old) (fields_of self.old) (history_of self.new) (fields_of self.new) }
        ensures honest { D.honest self.new.disk ≡ D.honest self.old.disk }
    {
        let count = self.entries.len();
        if count == 0 {
            return Ok(None);
        }
        let entry = self.entries[count - 1];
        match self.seal_at(count - 1) {
            Ok(sum) => Ok(Some(LastFile::File {
                min: entry.min,
                max: entry.max,
                sum,
            })),
            Err(fault) => Err(fault),
        }
    }
}
