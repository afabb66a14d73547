//! The metrics of a node.
ghost use Rattle.std.specs.Prelude.{◌≡◌, ◌++◌, OnOk};
ghost use Rattle.stream_primary.specs.MetricsText.{commit_rows, counter_rows, stream_rows, database_rows, has_database, is_halted, is_primary, log_rows, metrics_text, metrics_type, node_rows, reader_rows, refusal_line, refusal_lines, refusal_rows, time_rows};

use crate::histogram::put_histogram;
use crate::metric::{
    label_of, put_counter, put_flag, put_gauge, put_gauge_of, put_heading, put_sample, seconds,
};
use crate::metric_names::Metric;
use file_view::Role;
use lf_base::NoMemory;
use node_core::NodeInfo;
use node_figures::{Figures, Refused};
use std::alloc::Global;

/// The media type.
#[tactic(auto, unfolding(crate::specs::MetricsText::metrics_type))]
pub fn metrics_type() -> &'static [u8]
    ensures { result.now ≡ metrics_type }
{
    b"text/plain; version=0.0.4"
}

/// Appends the metrics.
#[tactic(auto, unfolding(crate::specs::MetricsText::metrics_text))]
pub fn put_metrics(
    alloc: Global,
    info: &NodeInfo,
    figures: &Figures,
    out: &mut Vec<u8>,
) -> Result<(), NoMemory>
    ensures { OnOk result (out.new.items ≡ out.old.items ++ metrics_text info.now figures.now) }
{
    put_node(alloc, info, figures, out)?;
    put_readers(alloc, figures, out)?;
    put_database(alloc, info, out)?;
    put_log(alloc, info, figures, out)?;
    put_counters(alloc, figures, out)?;
    put_refusals(alloc, figures.counts.refusals.as_slice(), out)?;
    put_times(alloc, figures, out)
}

#[tactic(auto, unfolding(crate::specs::MetricsText::node_rows))]
fn put_node(
    alloc: Global,
    info: &NodeInfo,
    figures: &Figures,
    out: &mut Vec<u8>,
) -> Result<(), NoMemory>
    ensures { OnOk result (out.new.items ≡ out.old.items ++ node_rows info.now figures.now) }
{
    let uptime = seconds(alloc, figures.uptime_ms)?;
    put_flag(Metric::IsPrimary, is_primary(info.role), out)?;
    put_flag(Metric::IsHalted, is_halted(info.role), out)?;
    put_flag(Metric::StoreBroken, info.broken, out)?;
    put_gauge_of(Metric::Uptime, uptime.as_slice(), out)
}

#[tactic(auto, unfolding(crate::specs::MetricsText::reader_rows))]
fn put_readers(alloc: Global, figures: &Figures, out: &mut Vec<u8>) -> Result<(), NoMemory>
    ensures { OnOk result (out.new.items ≡ out.old.items ++ reader_rows figures.now) }
{
    put_gauge(alloc, Metric::Subscribers, figures.counts.followers, out)?;
    put_gauge(alloc, Metric::Watchers, figures.counts.watchers, out)
}

#[tactic(auto, unfolding(crate::specs::MetricsText::database_rows))]
fn put_database(alloc: Global, info: &NodeInfo, out: &mut Vec<u8>) -> Result<(), NoMemory>
    ensures { OnOk result (out.new.items ≡ out.old.items ++ database_rows info.now) }
{
    put_flag(Metric::Databases, has_database(info), out)?;
    put_gauge(alloc, Metric::Txid, info.pos.txid, out)?;
    put_gauge(alloc, Metric::Pages, u64::from(info.commit), out)?;
    put_gauge(alloc, Metric::PageBytes, u64::from(info.page_size), out)
}

#[tactic(auto, unfolding(crate::specs::MetricsText::log_rows))]
fn put_log(
    alloc: Global,
    info: &NodeInfo,
    figures: &Figures,
    out: &mut Vec<u8>,
) -> Result<(), NoMemory>
    ensures { OnOk result (out.new.items ≡ out.old.items ++ log_rows info.now figures.now) }
{
    put_gauge(alloc, Metric::FirstTxid, info.first, out)?;
    put_gauge(alloc, Metric::LogFiles, info.files, out)?;
    put_gauge(alloc, Metric::LogBytes, figures.counts.log_bytes, out)
}

#[tactic(auto, unfolding(crate::specs::MetricsText::counter_rows))]
fn put_counters(alloc: Global, figures: &Figures, out: &mut Vec<u8>) -> Result<(), NoMemory>
    ensures { OnOk result (out.new.items ≡ out.old.items ++ counter_rows figures.now) }
{
    put_commits(alloc, figures, out)?;
    put_streams(alloc, figures, out)
}

#[tactic(auto, unfolding(crate::specs::MetricsText::commit_rows))]
fn put_commits(alloc: Global, figures: &Figures, out: &mut Vec<u8>) -> Result<(), NoMemory>
    ensures { OnOk result (out.new.items ≡ out.old.items ++ commit_rows figures.now) }
{
    put_counter(alloc, Metric::Commits, figures.counts.commits, out)?;
    put_counter(alloc, Metric::Snapshots, figures.counts.snapshots, out)
}

#[tactic(auto, unfolding(crate::specs::MetricsText::stream_rows))]
fn put_streams(alloc: Global, figures: &Figures, out: &mut Vec<u8>) -> Result<(), NoMemory>
    ensures { OnOk result (out.new.items ≡ out.old.items ++ stream_rows figures.now) }
{
    put_counter(alloc, Metric::SentBytes, figures.counts.sent_bytes, out)?;
    put_counter(alloc, Metric::HeldFrames, figures.counts.held_frames, out)
}

#[tactic(auto, unfolding(crate::specs::MetricsText::refusal_rows))]
fn put_refusals(alloc: Global, refusals: &[Refused], out: &mut Vec<u8>) -> Result<(), NoMemory>
    ensures { OnOk result (out.new.items ≡ out.old.items ++ refusal_rows refusals.now) }
{
    put_heading(Metric::Refusals, b"counter", out)?;
    put_refusal_lines(alloc, refusals, out)
}

fn put_refusal_lines(alloc: Global, refusals: &[Refused], out: &mut Vec<u8>) -> Result<(), NoMemory>
    ensures { OnOk result (out.new.items ≡ out.old.items ++ refusal_lines refusals.now) }
{
    for one in refusals {
        put_refusal(alloc, one, out)?;
    }
    Ok(())
}

#[tactic(auto, unfolding(crate::specs::MetricsText::refusal_line))]
fn put_refusal(alloc: Global, one: &Refused, out: &mut Vec<u8>) -> Result<(), NoMemory>
    ensures { OnOk result (out.new.items ≡ out.old.items ++ refusal_line one.now) }
{
    let errno = format!(in alloc; "{}", one.errno)?;
    let count = format!(in alloc; "{}", one.count)?;
    let label = label_of(alloc, b"{errno=\"", errno.as_bytes())?;
    put_sample(Metric::Refusals, label.as_slice(), count.as_bytes(), out)
}

#[tactic(auto, unfolding(crate::specs::MetricsText::time_rows))]
fn put_times(alloc: Global, figures: &Figures, out: &mut Vec<u8>) -> Result<(), NoMemory>
    ensures { OnOk result (out.new.items ≡ out.old.items ++ time_rows figures.now) }
{
    put_histogram(alloc, Metric::CommitTime, &figures.counts.commit_time, out)?;
    put_histogram(alloc, Metric::Lag, &figures.counts.lag, out)
}

pub fn is_primary(role: Role) -> bool
    ensures { result ≡ is_primary role }
{
    matches!(role, Role::Primary)
}

fn is_halted(role: Role) -> bool
    ensures { result ≡ is_halted role }
{
    matches!(role, Role::Halted)
}

/// Whether there is a database.
fn has_database(info: &NodeInfo) -> bool
    ensures { result ≡ has_database info.now }
{
    info.pos.txid != 0
}
