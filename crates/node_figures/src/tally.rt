//! How often what a node does happened. Nothing is told of it.
use crate::figures::{Counts, Histogram, Refused};
use lf_base::NoMemory;
use lf_disk::FileName;
use std::alloc::Global;
use std::mem::replace;
use std::sync::atomic::{AtomicU64, Ordering};
use std::sync::{Arc, Mutex, Wait};

/// The bounds of a histogram's buckets, in microseconds.
const BOUNDS: [u64; 10] = [
    1_000, 2_000, 5_000, 10_000, 25_000, 50_000, 100_000, 250_000, 1_000_000, 10_000_000,
];

/// How many error numbers are counted: those below this one.
const ERRNOS: usize = 134;

/// Counts that a node's jobs share. Its copies share them.
#[derive(Drop)]
pub struct Tally {
    cells: Arc<Cells, Global>,
}

/// What is counted.
#[derive(Drop)]
pub struct Cells {
    pub followers: AtomicU64,
    pub watchers: AtomicU64,
    pub commits: AtomicU64,
    pub sent_bytes: AtomicU64,
    pub held_frames: AtomicU64,
    pub snapshots: AtomicU64,
    commit_time: Times,
    lag: Times,
    refusals: Vec<AtomicU64>,
    log: Mutex<LogFiles>,
}

/// How long something took, each time: a cell for each bucket, one for what took longer, and the sum in
/// microseconds.
#[derive(Drop)]
struct Times {
    buckets: Vec<AtomicU64>,
    sum: AtomicU64,
}

/// The bytes of each file of a log, and of the one that is being written. No transaction behind `greatest` is
/// in a file that is known.
#[derive(Drop)]
struct LogFiles {
    sizes: Vec<(FileName, u64)>,
    greatest: u64,
    staged: u64,
}

fn zeros(alloc: Global, count: usize) -> Result<Vec<AtomicU64>, NoMemory> {
    let mut cells = Vec::new(alloc);
    for _ in 0..count {
        cells.push(AtomicU64::new(0))?;
    }
    Ok(cells)
}

/// Adds to a count, up to the last number of a u64, behind which it begins anew.
pub fn add(cell: &AtomicU64, number: u64) {
    cell.fetch_add(number, Ordering::SeqCst);
}

/// Takes one from a count.
pub fn take_one(cell: &AtomicU64) {
    cell.fetch_sub(1, Ordering::SeqCst);
}

fn read(cell: &AtomicU64) -> u64 {
    cell.load(Ordering::SeqCst)
}

impl Times {
    fn new(alloc: Global) -> Result<Times, NoMemory> {
        Ok(Times {
            buckets: zeros(alloc, BOUNDS.len() + 1)?,
            sum: AtomicU64::new(0),
        })
    }

    fn note(&self, micros: u64) {
        if let Some(cell) = self.buckets.get(bucket_of(micros)) {
            add(cell, 1);
        }
        add(&self.sum, micros);
    }

    fn read(&self) -> Histogram {
        let mut buckets = [0; 10];
        let mut count = 0u64;
        for place in 0..self.buckets.len() {
            let Some(cell) = self.buckets.get(place) else {
                break;
            };
            let number = read(cell);
            count = count.saturating_add(number);
            if place < buckets.len() {
                buckets[place] = number;
            }
        }
        Histogram {
            buckets,
            count,
            sum_ms: read(&self.sum) / 1000,
        }
    }
}

/// The place of the first bound that is not below.
fn bucket_of(micros: u64) -> usize {
    for place in 0..BOUNDS.len() {
        if micros <= BOUNDS[place] {
            return place;
        }
    }
    BOUNDS.len()
}

impl LogFiles {
    /// A file has so many bytes. One that is behind all others isn't looked for.
    fn set(&mut self, name: FileName, size: u64) {
        if name == FileName::Staged {
            self.staged = size;
        } else if is_of_log(name) {
            if !self.is_new(name) {
                let _ = self.take(name);
            }
            self.add(name, size);
        }
    }

    /// Whether it is a file of the log behind all that are known.
    fn is_new(&self, name: FileName) -> bool {
        match name {
            FileName::Ltx { min, .. } => min > self.greatest,
            _ => false,
        }
    }

    fn add(&mut self, name: FileName, size: u64) {
        if let FileName::Ltx { max, .. } = name {
            self.greatest = self.greatest.max(max);
        }
        let _ = self.sizes.push((name, size));
    }

    /// A file loses its name. It had so many bytes, or 0 where that isn't known.
    fn take(&mut self, name: FileName) -> u64 {
        if name == FileName::Staged {
            return replace(&mut self.staged, 0);
        }
        for place in 0..self.sizes.len() {
            if self.sizes[place].0 == name {
                return self.sizes.remove(place).1;
            }
        }
        0
    }

    fn total(&self) -> u64 {
        let mut total = 0u64;
        for file in self.sizes.iter() {
            total = total.saturating_add(file.1);
        }
        total
    }
}

/// Whether a file is one of the log.
fn is_of_log(name: FileName) -> bool {
    matches!(name, FileName::Ltx { .. } | FileName::Snapshot)
}

impl Tally {
    pub fn new(alloc: Global) -> Result<Tally, NoMemory> {
        let cells = Cells {
            followers: AtomicU64::new(0),
            watchers: AtomicU64::new(0),
            commits: AtomicU64::new(0),
            sent_bytes: AtomicU64::new(0),
            held_frames: AtomicU64::new(0),
            snapshots: AtomicU64::new(0),
            commit_time: Times::new(alloc)?,
            lag: Times::new(alloc)?,
            refusals: zeros(alloc, ERRNOS)?,
            log: Mutex::new(LogFiles {
                sizes: Vec::new(alloc),
                greatest: 0,
                staged: 0,
            }),
        };
        Ok(Tally {
            cells: Arc::new(alloc, cells)?,
        })
    }

    /// A second hold of the same counts.
    pub fn another(&self) -> Result<Tally, NoMemory> {
        let cells = Arc::try_clone(&self.cells)?;
        Ok(Tally { cells })
    }

    pub fn cells(&self) -> &Cells {
        &*self.cells
    }

    /// How many read the node's events.
    pub fn watchers(&self) -> u64 {
        read(&self.cells.watchers)
    }

    /// A transaction came into the log, in so many microseconds.
    pub fn commit(&self, micros: u64) {
        add(&self.cells.commits, 1);
        self.cells.commit_time.note(micros);
    }

    /// A transaction was applied so many milliseconds after its commit.
    pub fn lag(&self, millis: u64) {
        self.cells.lag.note(millis.saturating_mul(1000));
    }

    /// A request was refused with this number.
    pub fn refused(&self, errno: u32) {
        if let Some(cell) = self.cells.refusals.get(errno as usize) {
            add(cell, 1);
        }
    }

    /// A file has so many bytes.
    pub fn sized(&self, rt: &impl Wait, name: FileName, size: u64) {
        self.cells.log.lock(rt).set(name, size);
    }

    /// The file that is being written reaches this far.
    pub fn staged(&self, rt: &impl Wait, end: u64) {
        let mut log = self.cells.log.lock(rt);
        log.staged = log.staged.max(end);
    }

    /// A file has another name.
    pub fn renamed(&self, rt: &impl Wait, from: FileName, to: FileName) {
        let mut log = self.cells.log.lock(rt);
        let size = log.take(from);
        log.set(to, size);
    }

    pub fn removed(&self, rt: &impl Wait, name: FileName) {
        let _ = self.cells.log.lock(rt).take(name);
    }

    /// All counts, as they stand.
    pub fn counts(&self, rt: &impl Wait, alloc: Global) -> Result<Counts, NoMemory> {
        let cells = &*self.cells;
        let refusals = refusals_in(alloc, &cells.refusals)?;
        let log_bytes = cells.log.lock(rt).total();
        Ok(Counts {
            followers: read(&cells.followers),
            watchers: read(&cells.watchers),
            commits: read(&cells.commits),
            log_bytes,
            sent_bytes: read(&cells.sent_bytes),
            held_frames: read(&cells.held_frames),
            snapshots: read(&cells.snapshots),
            refusals,
            commit_time: cells.commit_time.read(),
            lag: cells.lag.read(),
        })
    }
}

/// Those that were counted, by their numbers.
fn refusals_in(alloc: Global, cells: &Vec<AtomicU64>) -> Result<Vec<Refused>, NoMemory> {
    let mut refusals = Vec::new(alloc);
    for errno in 0..ERRNOS as u32 {
        let count = match cells.get(errno as usize) {
            Some(cell) => read(cell),
            None => 0,
        };
        if count > 0 {
            refusals.push(Refused { errno, count })?;
        }
    }
    Ok(refusals)
}
