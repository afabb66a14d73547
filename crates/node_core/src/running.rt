//! A run: files of the log that stand one behind another, given to a follower as one.
ghost use Rattle.std.specs.Prelude.{◌≡◌, ◌≢◌, ◌<◌, ◌≤◌, ◌+◌, ◌++◌, ◌∷◌, [], false, IsTrue, All, IfOk, IfErr, OnOk, IfSome, Err, length, get_or};
ghost use Rattle.lf_disk.specs.History.{Rests};
ghost use Rattle.ltx_codec.specs.Format.{IsFile, IsLtx};
ghost use Rattle.ltx_codec.specs.declared.file.Ltx.{Ltx as LtxFile};
ghost use Rattle.node_core.specs.Hello.{IsLookedInto};
ghost use Rattle.node_core.specs.Running.{IsEncodingOfAll, IsNext, IsRun, files_at};
ghost use Rattle.node_core.specs.Stores.{fields_of, history_of, state};
ghost use Rattle.txn_log.specs.Giving.{Gives, IsEncodingAt};
ghost use Rattle.txn_log.specs.declared.entry.Entry.{Entry as EntryOf};

use lf_base::{Bytes, Pos};
use lf_disk::Disk;
use ltx_codec::{Ltx, decode, encode};
use ltx_compact::compact_owned;
use std::alloc::Global;
use txn_log::{Entry, Store, StoreFault};

/// How many files at the end of a log go each alone.
const ALONE: usize = 64;
/// Most files of a run.
const MOST_FILES: usize = 256;
/// Most bytes that the encodings of a run's files have together.
const MOST_BYTES: usize = 1_048_576;
/// Most pages of a database after a file of a run.
const MOST_PAGES: u32 = 262_144;

/// A file that is given, and the position that it leads to.
#[derive(Drop)]
pub(crate) struct Next {
    pub ltx: Bytes,
    pub after: Pos,
}

/// Files of a run, and how many bytes more there is room for.
#[derive(Drop)]
struct Gathered {
    files: Vec<Ltx>,
    room: usize,
}

impl Gathered {
    /// Adds the file that the bytes are, where there is room for them and memory, and the database isn't
    /// too large. Tells whether it did.
    fn add(&mut self, alloc: Global, bytes: &[u8]) -> bool
        ensures added { IsTrue result → (file : LtxFile) → IsLtx bytes.now file → self.new.files.items ≡ self.old.files.items ++ file ∷ [] }
        ensures more { IsTrue result → length self.new.files.items ≡ length self.old.files.items + 1 }
        ensures valid { IsTrue result → All IsFile self.old.files.items → All IsFile self.new.files.items }
        ensures same { result ≡ false → self.new.files.items ≡ self.old.files.items }
    {
        if bytes.len() > self.room {
            return false;
        }
        let Ok(file) = decode(alloc, bytes) else {
            return false;
        };
        if file.header.commit > MOST_PAGES {
            return false;
        }
        match self.files.push(file) {
            Ok(()) => {}
            Err(_) => return false,
        }
        self.room -= bytes.len();
        true
    }
}

/// How many files there are for a run from a place of the log on: none where a snapshot stands there,
/// and the last ones of the log go alone.
fn files_for_run(entries: &[Entry], first: usize) -> usize
    requires { first < length entries.now }
    ensures at_most { result ≤ 256 }
    ensures before_last { 1 ≤ result → first + result + 64 ≤ length entries.now }
    ensures later { 1 ≤ result → (d : EntryOf) → (get_or entries.now first d).min ≢ 1 }
{
    if entries[first].min == 1 {
        return 0;
    }
    let behind = entries.len() - first;
    behind.saturating_sub(ALONE).min(MOST_FILES)
}

/// Makes `out` the bytes of the file at a place of the log.
fn read_file<D: Disk>(store: &mut Store<D>, at: usize, out: &mut Vec<u8>) -> Result<(), StoreFault>
    requires { at < length store.old.entries.items }
    ensures encoding { IsTrue (D.honest store.old.disk) → OnOk result (IsEncodingAt (state (history_of store.old) (fields_of store.old)).log at out.new.items) }
    ensures cause { Gives store.old.broken (D.faults store.old.disk) result (D.faults store.new.disk) }
    ensures looked { IsLookedInto (history_of store.old) (fields_of store.old) (history_of store.new) (fields_of store.new) }
    ensures rests { IsTrue (D.honest store.old.disk) → Rests (history_of store.old) (history_of store.new) }
    ensures honest { D.honest store.new.disk ≡ D.honest store.old.disk }
{
    store.file(at, out)
}

/// The files of a run of at most so many files, of which the first has these bytes.
fn gather<D: Disk>(
    alloc: Global,
    store: &mut Store<D>,
    first: usize,
    most: usize,
    bytes: &[u8],
) -> Vec<Ltx>
    requires several { 2 ≤ most }
    requires there { first + most ≤ length store.old.entries.items }
    requires encoding { IsTrue (D.honest store.old.disk) → IsEncodingAt (state (history_of store.old) (fields_of store.old)).log first bytes.now }
    ensures files { IsTrue (D.honest store.old.disk) → result.items ≡ files_at (state (history_of store.old) (fields_of store.old)).log first (length result.items) }
    ensures valid { All IsFile result.items }
    ensures at_most { length result.items ≤ most }
    ensures looked { IsLookedInto (history_of store.old) (fields_of store.old) (history_of store.new) (fields_of store.new) }
    ensures rests { IsTrue (D.honest store.old.disk) → Rests (history_of store.old) (history_of store.new) }
    ensures honest { D.honest store.new.disk ≡ D.honest store.old.disk }
{
    let mut gathered = Gathered {
        files: Vec::new(alloc),
        room: MOST_BYTES,
    };
    if !gathered.add(alloc, bytes) {
        return gathered.files;
    }
    let mut next = Vec::new(alloc);
    for at in 1..most {
        match read_file(store, first + at, &mut next) {
            Ok(()) => {}
            Err(_) => return gathered.files,
        }
        if !gathered.add(alloc, next.as_slice()) {
            return gathered.files;
        }
    }
    gathered.files
}

/// The encoding of the one file that files become, which is no snapshot.
fn encoding_of_all(alloc: Global, files: Vec<Ltx>) -> Option<Bytes>
    requires { All IsFile files.items }
    ensures { IfSome result (IsEncodingOfAll files.items) }
{
    let Ok(file) = compact_owned(alloc, files) else {
        return None;
    };
    if file.header.min == 1 {
        return None;
    }
    let mut bytes = Vec::new(alloc);
    match encode(&file, &mut bytes) {
        Ok(()) => Some(Bytes::of(bytes)),
        Err(_) => None,
    }
}

/// The run of two files or more from a place of the log on, where the first has these bytes. There is
/// none where its files are too long, can't be read, or memory is wanting.
fn run_from<D: Disk>(
    alloc: Global,
    store: &mut Store<D>,
    first: usize,
    bytes: &[u8],
) -> Option<Next>
    requires there { first < length store.old.entries.items }
    requires encoding { IsTrue (D.honest store.old.disk) → IsEncodingAt (state (history_of store.old) (fields_of store.old)).log first bytes.now }
    ensures run { IfSome result (λ run. IsRun store.old.entries.items first (D.honest store.old.disk)
        (state (history_of store.old) (fields_of store.old)).log run.ltx run.after) }
    ensures looked { IsLookedInto (history_of store.old) (fields_of store.old) (history_of store.new) (fields_of store.new) }
    ensures rests { IsTrue (D.honest store.old.disk) → Rests (history_of store.old) (history_of store.new) }
    ensures honest { D.honest store.new.disk ≡ D.honest store.old.disk }
{
    let most = files_for_run(store.entries.as_slice(), first);
    if most < 2 {
        return None;
    }
    let files = gather(alloc, store, first, most, bytes);
    let count = files.len();
    if count < 2 {
        return None;
    }
    let after = store.entries[first + count - 1].post;
    match encoding_of_all(alloc, files) {
        Some(ltx) => Some(Next { ltx, after }),
        None => None,
    }
}

/// What comes next at a place of the log: a run from there on, or, where there is none, the file there.
pub(crate) fn next_from<D: Disk>(
    alloc: Global,
    store: &mut Store<D>,
    first: usize,
) -> Result<Next, StoreFault>
    requires { first < length store.old.entries.items }
    ensures next { IfOk result (λ next. IsNext store.old.entries.items first (D.honest store.old.disk)
        (state (history_of store.old) (fields_of store.old)).log next.ltx next.after) }
    ensures cause { IfErr result (λ why. Gives {T = Unit {0}} store.old.broken (D.faults store.old.disk) (Err why) (D.faults store.new.disk)) }
    ensures looked { IsLookedInto (history_of store.old) (fields_of store.old) (history_of store.new) (fields_of store.new) }
    ensures rests { IsTrue (D.honest store.old.disk) → Rests (history_of store.old) (history_of store.new) }
    ensures honest { D.honest store.new.disk ≡ D.honest store.old.disk }
{
    let mut bytes = Vec::new(alloc);
    match read_file(store, first, &mut bytes) {
        Ok(()) => {}
        Err(fault) => return Err(fault),
    }
    match run_from(alloc, store, first, bytes.as_slice()) {
        Some(run) => Ok(run),
        None => Ok(Next {
            ltx: Bytes::of(bytes),
            after: store.entries[first].post,
        }),
    }
}
