//! Replies read.
ghost use Rattle.std.specs.Prelude.{◌≡◌, Option, Some, None, codes, IfOk, option_map};
ghost use Rattle.serde_json.specs.Data.{Data};
ghost use Rattle.serde_json.specs.Find.{get};
ghost use Rattle.serde_json.specs.View.{view};
ghost use Rattle.etcd_wire.specs.Replies.{Reads, key_in, keys_in, lasts_in, lease_in, number_in, number_or_zero_of, reply_in, said_in, text_or_empty_of, told_in};

use crate::call::Call;
use crate::said::{KeyValue, Said};
use lease_core::{BodyFault, read_json};
use lf_base::{NoMemory, Text};
use serde_json::Value;
use std::alloc::Global;
use stream_wire::decimal;

/// What the body of a reply to this call says; nothing where it is no whole answer.
pub fn read_said(alloc: Global, call: &Call, body: &[u8]) -> Result<Option<Said>, NoMemory>
    ensures { IfOk result (Reads call.now body.now) }
{
    match read_json(alloc, body) {
        Ok(value) => said(alloc, call, &value),
        Err(BodyFault::NoMemory) => Err(NoMemory),
        Err(BodyFault::Syntax | BodyFault::Shape) => Ok(None),
    }
}

fn said(alloc: Global, call: &Call, value: &Value) -> Result<Option<Said>, NoMemory>
    ensures { IfOk result (λ said. said ≡ said_in call.now (view value.now)) }
{
    let Some(reply) = reply_of(call, value) else {
        return Ok(None);
    };
    let Some(_header) = reply.get("header") else {
        return Ok(None);
    };
    told(alloc, call, reply)
}

/// Where a call's reply stands: that of `KeepAlive` is one of a stream.
fn reply_of<'v>(call: &Call, value: &'v Value) -> Option<&'v Value>
    ensures { option_map (λ reply. view reply.now) result ≡ reply_in call.now (view value.now) }
{
    match call {
        Call::KeepAlive { .. } => value.get("result"),
        _ => Some(value),
    }
}

#[tactic(auto, unfolding(crate::specs::Replies::told_in))]
fn told(alloc: Global, call: &Call, reply: &Value) -> Result<Option<Said>, NoMemory>
    ensures { IfOk result (λ said. said ≡ told_in call.now (view reply.now)) }
{
    match call {
        Call::Range => keys(alloc, reply.get("kvs")),
        Call::Grant => Ok(lease(reply)),
        Call::KeepAlive { .. } => Ok(lasts(reply)),
        Call::Put { .. } | Call::Revoke { .. } => Ok(Some(Said::Done)),
    }
}

fn keys(alloc: Global, keys: Option<&Value>) -> Result<Option<Said>, NoMemory>
    ensures { IfOk result (λ said. said ≡ keys_in (option_map (λ keys. view keys.now) keys.entry)) }
{
    let Some(keys) = keys else {
        return Ok(Some(Said::Key(None)));
    };
    let Some(first) = keys.get(0usize) else {
        return Ok(None);
    };
    match key(alloc, first)? {
        Some(key) => Ok(Some(Said::Key(Some(key)))),
        None => Ok(None),
    }
}

#[tactic(auto, unfolding(crate::specs::Replies::key_in))]
fn key(alloc: Global, value: &Value) -> Result<Option<KeyValue>, NoMemory>
    ensures { IfOk result (λ key. key ≡ key_in (view value.now)) }
{
    let Some(created) = number(value, "create_revision") else {
        return Ok(None);
    };
    let Some(lease) = number_or_zero(value.get("lease")) else {
        return Ok(None);
    };
    let Some(text) = text_or_empty(value.get("value")) else {
        return Ok(None);
    };
    let value = Text::of(alloc, text)?;
    Ok(Some(KeyValue {
        created,
        lease,
        value,
    }))
}

fn lease(reply: &Value) -> Option<Said>
    ensures { result ≡ lease_in (view reply.now) }
{
    let lease = number(reply, "ID")?;
    let ttl = number(reply, "TTL")?;
    Some(Said::Lease { lease, ttl })
}

fn lasts(reply: &Value) -> Option<Said>
    ensures { result ≡ lasts_in (view reply.now) }
{
    let ttl = number_or_zero(reply.get("TTL"))?;
    Some(Said::Lasts { ttl })
}

fn number(value: &Value, key: &str) -> Option<u64>
    ensures { result ≡ number_in key.now (view value.now) }
{
    decimal(value.get(key)?.as_str()?.as_bytes())
}

fn number_or_zero(value: Option<&Value>) -> Option<u64>
    ensures { result ≡ number_or_zero_of (option_map (λ value. view value.now) value.entry) }
{
    match value {
        Some(value) => decimal(value.as_str()?.as_bytes()),
        None => Some(0),
    }
}

fn text_or_empty(value: Option<&Value>) -> Option<&str>
    ensures { option_map (λ text. text.now) result ≡ text_or_empty_of (option_map (λ value. view value.now) value.entry) }
{
    match value {
        Some(value) => value.as_str(),
        None => Some(""),
    }
}
