//! The names of the metrics, and what each is.
ghost use Rattle.std.specs.Prelude.{◌≡◌};
ghost use Rattle.stream_primary.specs.MetricNames.{help_of, name_of};

/// A metric of a node.
#[derive(Clone, Copy, Debug, PartialEq, Eq)]
pub enum Metric {
    IsPrimary,
    IsHalted,
    StoreBroken,
    Uptime,
    Subscribers,
    Watchers,
    Databases,
    Txid,
    Pages,
    PageBytes,
    FirstTxid,
    LogFiles,
    LogBytes,
    Commits,
    Snapshots,
    SentBytes,
    HeldFrames,
    Refusals,
    CommitTime,
    Lag,
}

/// Its name.
#[tactic(auto, unfolding(crate::specs::MetricNames::name_of))]
pub fn name_of(metric: Metric) -> &'static [u8]
    ensures { result.now ≡ name_of metric }
{
    match metric {
        Metric::IsPrimary => b"litefs_is_primary",
        Metric::IsHalted => b"litefs_is_halted",
        Metric::StoreBroken => b"litefs_store_broken",
        Metric::Uptime => b"litefs_uptime_seconds",
        Metric::Subscribers => b"litefs_subscriber_count",
        Metric::Watchers => b"litefs_watcher_count",
        Metric::Databases => b"litefs_db_count",
        Metric::Txid => b"litefs_db_txid",
        Metric::Pages => b"litefs_db_pages",
        Metric::PageBytes => b"litefs_db_page_bytes",
        Metric::FirstTxid => b"litefs_log_first_txid",
        Metric::LogFiles => b"litefs_log_files",
        Metric::LogBytes => b"litefs_log_bytes",
        Metric::Commits => b"litefs_commits_total",
        Metric::Snapshots => b"litefs_snapshots_total",
        Metric::SentBytes => b"litefs_stream_sent_bytes_total",
        Metric::HeldFrames => b"litefs_frames_held_total",
        Metric::Refusals => b"litefs_refusals_total",
        Metric::CommitTime => b"litefs_commit_seconds",
        Metric::Lag => b"litefs_replica_lag_seconds",
    }
}

/// What it is.
#[tactic(auto, unfolding(crate::specs::MetricNames::help_of))]
pub fn help_of(metric: Metric) -> &'static [u8]
    ensures { result.now ≡ help_of metric }
{
    match metric {
        Metric::IsPrimary => b"Whether the node is the primary.",
        Metric::IsHalted => b"Whether the node has a write permit of the primary.",
        Metric::StoreBroken => b"Whether its disk failed, and nothing is committed any more.",
        Metric::Uptime => b"For how long the node has run.",
        Metric::Subscribers => b"Followers that are served now.",
        Metric::Watchers => b"Readers of events that are served now.",
        Metric::Databases => b"How many databases the node has.",
        Metric::Txid => b"The last transaction.",
        Metric::Pages => b"The pages of the database.",
        Metric::PageBytes => b"The bytes of a page.",
        Metric::FirstTxid => b"The first transaction in the log.",
        Metric::LogFiles => b"The files in the log.",
        Metric::LogBytes => b"The bytes of the log.",
        Metric::Commits => b"Transactions that came into the log.",
        Metric::Snapshots => b"Snapshots that were sent or installed.",
        Metric::SentBytes => b"The bytes of the files that were sent to followers.",
        Metric::HeldFrames => b"Frames that a lock held back.",
        Metric::Refusals => b"Requests on the files that were refused, by error number.",
        Metric::CommitTime => b"How long commits took.",
        Metric::Lag => b"How long after its commit a transaction was applied here.",
    }
}
