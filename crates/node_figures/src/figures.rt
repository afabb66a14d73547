//! What a node tells of itself that its machine isn't asked.
use lf_base::{NoMemory, Text};
use std::alloc::Global;

/// How often a request was refused with an error number.
#[derive(Clone, Copy, Debug, PartialEq, Eq)]
pub struct Refused {
    pub errno: u32,
    pub count: u64,
}

/// How long something took, each time.
#[derive(Clone, Copy, Debug, PartialEq, Eq)]
pub struct Histogram {
    /// How often it took at most 1, 2, 5, 10, 25, 50, 100, 250, 1000 and 10000 ms, and longer than the bound before.
    pub buckets: [u64; 10],
    /// How often in all.
    pub count: u64,
    /// How long all took together, in milliseconds.
    pub sum_ms: u64,
}

/// How often what a node does happened, since its start.
#[derive(Debug, Drop)]
pub struct Counts {
    /// Followers that are served now, and watchers of its events.
    pub followers: u64,
    pub watchers: u64,
    /// Transactions that came into its log: commits, and files applied.
    pub commits: u64,
    /// The bytes of its log now.
    pub log_bytes: u64,
    /// The bytes of the files that were sent to followers.
    pub sent_bytes: u64,
    /// Frames that a lock held back, each time they were asked for.
    pub held_frames: u64,
    /// Snapshots that were sent or installed.
    pub snapshots: u64,
    /// Requests on the files that were refused: the numbers ascending, each count above 0.
    pub refusals: Vec<Refused>,
    pub commit_time: Histogram,
    /// How long after its commit a transaction was applied at a replica, by the replica's clock.
    pub lag: Histogram,
}

/// What a node tells of itself beside what it is asked.
#[derive(Debug, Drop)]
pub struct Figures {
    /// The node's number.
    pub node: u64,
    pub uptime_ms: u64,
    /// Where the primary is found, if the node follows one.
    pub primary_url: Option<Text>,
    pub counts: Counts,
}

/// Where figures are read.
pub trait Gauge {
    fn read(&self, alloc: Global) -> Result<Figures, NoMemory>;
}
