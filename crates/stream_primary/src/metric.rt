//! Prometheus' text format: the lines of a metric.
ghost use Rattle.std.specs.Prelude.{◌≡◌, ◌+◌, ◌/◌, ◌%◌, ◌++◌, ◌∷◌, [], codes, decimal, IfOk, OnOk};
ghost use Rattle.stream_primary.specs.Metric.{bucket, counter, flag, gauge, heading, label, sample, seconds};

use crate::metric_names::{Metric, help_of, name_of};
use lf_base::NoMemory;
use std::alloc::Global;

/// Appends the lines before a metric's samples.
#[tactic(auto, unfolding(crate::specs::Metric::heading))]
pub fn put_heading(metric: Metric, kind: &[u8], out: &mut Vec<u8>) -> Result<(), NoMemory>
    ensures { OnOk result (out.new.items ≡ out.old.items ++ heading metric kind.now) }
{
    put(out, b"# HELP ")?;
    put(out, name_of(metric))?;
    put(out, b" ")?;
    put(out, help_of(metric))?;
    put(out, b"\n# TYPE ")?;
    put(out, name_of(metric))?;
    put(out, b" ")?;
    put(out, kind)?;
    put(out, b"\n")
}

/// Appends a sample's line.
#[tactic(auto, unfolding(crate::specs::Metric::sample))]
pub fn put_sample(
    metric: Metric,
    behind: &[u8],
    value: &[u8],
    out: &mut Vec<u8>,
) -> Result<(), NoMemory>
    ensures { OnOk result (out.new.items ≡ out.old.items ++ sample metric behind.now value.now) }
{
    put(out, name_of(metric))?;
    put(out, behind)?;
    put(out, b" ")?;
    put(out, value)?;
    put(out, b"\n")
}

/// Appends a metric of one sample, that rises and falls.
#[tactic(auto, unfolding(crate::specs::Metric::gauge))]
pub fn put_gauge_of(metric: Metric, value: &[u8], out: &mut Vec<u8>) -> Result<(), NoMemory>
    ensures { OnOk result (out.new.items ≡ out.old.items ++ gauge metric value.now) }
{
    put_heading(metric, b"gauge", out)?;
    put_sample(metric, b"", value, out)
}

/// The same of a number.
pub fn put_gauge(
    alloc: Global,
    metric: Metric,
    number: u64,
    out: &mut Vec<u8>,
) -> Result<(), NoMemory>
    ensures { OnOk result (out.new.items ≡ out.old.items ++ gauge metric (decimal number)) }
{
    let digits = format!(in alloc; "{number}")?;
    put_gauge_of(metric, digits.as_bytes(), out)
}

/// The same of a condition.
pub fn put_flag(metric: Metric, holds: bool, out: &mut Vec<u8>) -> Result<(), NoMemory>
    ensures { OnOk result (out.new.items ≡ out.old.items ++ gauge metric (flag holds)) }
{
    match holds {
        true => put_gauge_of(metric, b"1", out),
        false => put_gauge_of(metric, b"0", out),
    }
}

/// Appends a metric of one sample, that only rises.
#[tactic(auto, unfolding(crate::specs::Metric::counter))]
pub fn put_counter(
    alloc: Global,
    metric: Metric,
    number: u64,
    out: &mut Vec<u8>,
) -> Result<(), NoMemory>
    ensures { OnOk result (out.new.items ≡ out.old.items ++ counter metric (decimal number)) }
{
    let digits = format!(in alloc; "{number}")?;
    put_heading(metric, b"counter", out)?;
    put_sample(metric, b"", digits.as_bytes(), out)
}

/// Appends the sample of a histogram's bound, in seconds.
#[tactic(auto, unfolding(crate::specs::Metric::bucket))]
pub fn put_bucket(
    alloc: Global,
    metric: Metric,
    bound: &[u8],
    count: u64,
    out: &mut Vec<u8>,
) -> Result<(), NoMemory>
    ensures { OnOk result (out.new.items ≡ out.old.items ++ bucket metric bound.now count) }
{
    let digits = format!(in alloc; "{count}")?;
    let label = label_of(alloc, b"_bucket{le=\"", bound)?;
    put_sample(metric, label.as_slice(), digits.as_bytes(), out)
}

/// A label and its value behind the front of it.
#[tactic(auto, unfolding(crate::specs::Metric::label))]
pub fn label_of(alloc: Global, front: &[u8], value: &[u8]) -> Result<Vec<u8>, NoMemory>
    ensures { IfOk result (λ text. text.items ≡ label front.now value.now) }
{
    let mut text = Vec::from_slice(alloc, front)?;
    put(&mut text, value)?;
    put(&mut text, b"\"}")?;
    Ok(text)
}

/// Milliseconds as seconds with three decimals.
#[tactic(auto, unfolding(crate::specs::Metric::seconds))]
pub fn seconds(alloc: Global, ms: u64) -> Result<Vec<u8>, NoMemory>
    ensures { IfOk result (λ text. text.items ≡ seconds ms) }
{
    let whole = ms / 1000;
    let digits = format!(in alloc; "{whole}")?;
    let mut text = Vec::from_slice(alloc, digits.as_bytes())?;
    put(&mut text, &decimals(ms))?;
    Ok(text)
}

/// The point and the three decimals.
fn decimals(ms: u64) -> [u8; 4]
    ensures { result ≡ 46 ∷ (48 + ms / 100 % 10) ∷ (48 + ms / 10 % 10) ∷ (48 + ms % 10) ∷ [] }
{
    [
        b'.',
        b'0' + (ms / 100 % 10) as u8,
        b'0' + (ms / 10 % 10) as u8,
        b'0' + (ms % 10) as u8,
    ]
}

/// Appends bytes.
pub fn put(out: &mut Vec<u8>, bytes: &[u8]) -> Result<(), NoMemory>
    ensures { OnOk result (out.new.items ≡ out.old.items ++ bytes.now) }
{
    out.extend_from_slice(bytes)?;
    Ok(())
}
