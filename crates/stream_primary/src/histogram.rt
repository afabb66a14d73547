//! A histogram as a metric.
ghost use Rattle.std.specs.Prelude.{◌≡◌, ◌<◌, ◌++◌, OnOk};
ghost use Rattle.stream_primary.specs.Metric.{histogram, long_buckets, short_buckets, together, up_to};

use crate::metric::{put_bucket, put_heading, put_sample, seconds};
use crate::metric_names::Metric;
use lf_base::NoMemory;
use node_figures::Histogram;
use std::alloc::Global;

/// Appends a histogram.
#[tactic(auto, unfolding(crate::specs::Metric::histogram))]
pub fn put_histogram(
    alloc: Global,
    metric: Metric,
    times: &Histogram,
    out: &mut Vec<u8>,
) -> Result<(), NoMemory>
    ensures { OnOk result (out.new.items ≡ out.old.items ++ histogram metric times.now) }
{
    let count = format!(in alloc; "{}", times.count)?;
    let sum = seconds(alloc, times.sum_ms)?;
    put_heading(metric, b"histogram", out)?;
    put_short_buckets(alloc, metric, &times.buckets, out)?;
    put_long_buckets(alloc, metric, &times.buckets, out)?;
    put_bucket(alloc, metric, b"+Inf", times.count, out)?;
    put_sample(metric, b"_sum", sum.as_slice(), out)?;
    put_sample(metric, b"_count", count.as_bytes(), out)
}

/// Appends the samples of the first five bounds.
#[tactic(auto, unfolding(crate::specs::Metric::short_buckets))]
fn put_short_buckets(
    alloc: Global,
    metric: Metric,
    buckets: &[u64; 10],
    out: &mut Vec<u8>,
) -> Result<(), NoMemory>
    ensures { OnOk result (out.new.items ≡ out.old.items ++ short_buckets metric buckets.now) }
{
    put_bucket(alloc, metric, b"0.001", up_to(buckets, 0), out)?;
    put_bucket(alloc, metric, b"0.002", up_to(buckets, 1), out)?;
    put_bucket(alloc, metric, b"0.005", up_to(buckets, 2), out)?;
    put_bucket(alloc, metric, b"0.01", up_to(buckets, 3), out)?;
    put_bucket(alloc, metric, b"0.025", up_to(buckets, 4), out)
}

/// Appends the samples of the others.
#[tactic(auto, unfolding(crate::specs::Metric::long_buckets))]
fn put_long_buckets(
    alloc: Global,
    metric: Metric,
    buckets: &[u64; 10],
    out: &mut Vec<u8>,
) -> Result<(), NoMemory>
    ensures { OnOk result (out.new.items ≡ out.old.items ++ long_buckets metric buckets.now) }
{
    put_bucket(alloc, metric, b"0.05", up_to(buckets, 5), out)?;
    put_bucket(alloc, metric, b"0.1", up_to(buckets, 6), out)?;
    put_bucket(alloc, metric, b"0.25", up_to(buckets, 7), out)?;
    put_bucket(alloc, metric, b"1", up_to(buckets, 8), out)?;
    put_bucket(alloc, metric, b"10", up_to(buckets, 9), out)
}

/// How often it took at most the bound of the bucket at this place.
fn up_to(buckets: &[u64; 10], place: usize) -> u64
    requires { place < 10 }
    ensures { result ≡ up_to buckets.now place }
{
    let mut count = buckets[0];
    for below in 0..place {
        count = together(count, buckets[below + 1]);
    }
    count
}

/// Both counts. At a u64's end it stands.
#[tactic(auto, unfolding(crate::specs::Metric::together))]
fn together(count: u64, more: u64) -> u64
    ensures { result ≡ together count more }
{
    count.saturating_add(more)
}
