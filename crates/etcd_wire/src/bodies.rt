//! The bodies of calls.
ghost use Rattle.std.specs.Prelude.{◌≡◌, IfOk, string_bytes};
ghost use Rattle.serde_json.specs.View.{view};
ghost use Rattle.serde_json.specs.Written.{compact_text};
ghost use Rattle.etcd_wire.specs.Calls.{coded, data_of, grant_data, lease_data, none_such, put_data, range_data, txn_data};

use crate::call::Call;
use base64::engine::general_purpose::STANDARD;
use lf_base::{NoMemory, Text};
use serde_json::{Value, json};
use std::alloc::Global;

/// The body of a call. The key stands in base64.
pub fn body_of(alloc: Global, key: &Text, ttl: u64, call: &Call) -> Result<Vec<u8>, NoMemory>
    ensures { IfOk result (λ body. body.items ≡ compact_text (data_of key.now ttl call.now)) }
{
    let body = value_of(alloc, key, ttl, call)?.to_vec(alloc)?;
    Ok(body)
}

fn value_of(alloc: Global, key: &Text, ttl: u64, call: &Call) -> Result<Value, NoMemory>
    ensures { IfOk result (λ value. view value ≡ data_of key.now ttl call.now) }
{
    match call {
        Call::Range => range_value(alloc, key),
        Call::Grant => grant_value(alloc, ttl),
        Call::Put { lease, value } => txn_value(alloc, key, *lease, value.as_slice()),
        Call::KeepAlive { lease } | Call::Revoke { lease } => lease_value(alloc, *lease),
    }
}

fn range_value(alloc: Global, key: &Text) -> Result<Value, NoMemory>
    ensures { IfOk result (λ value. view value ≡ range_data key.now) }
{
    let key = key.as_str();
    let value = json!(in alloc; {"key": key})?;
    Ok(value)
}

fn grant_value(alloc: Global, ttl: u64) -> Result<Value, NoMemory>
    ensures { IfOk result (λ value. view value ≡ grant_data ttl) }
{
    let value = json!(in alloc; {"TTL": ttl})?;
    Ok(value)
}

fn lease_value(alloc: Global, lease: u64) -> Result<Value, NoMemory>
    ensures { IfOk result (λ value. view value ≡ lease_data lease) }
{
    let value = json!(in alloc; {"ID": lease})?;
    Ok(value)
}

fn txn_value(alloc: Global, key: &Text, lease: u64, value: &[u8]) -> Result<Value, NoMemory>
    ensures { IfOk result (λ whole. view whole ≡ txn_data key.now lease value.now) }
{
    let none = none_such_value(alloc, key)?;
    let put = put_value(alloc, key, lease, value)?;
    let (none, put) = (&none, &put);
    let whole = json!(in alloc; {"compare": [none], "success": [put]})?;
    Ok(whole)
}

fn none_such_value(alloc: Global, key: &Text) -> Result<Value, NoMemory>
    ensures { IfOk result (λ value. view value ≡ none_such key.now) }
{
    let key = key.as_str();
    let value = json!(in alloc; {"create_revision": "0", "key": key, "target": "CREATE"})?;
    Ok(value)
}

fn put_value(alloc: Global, key: &Text, lease: u64, value: &[u8]) -> Result<Value, NoMemory>
    ensures { IfOk result (λ whole. view whole ≡ put_data key.now lease value.now) }
{
    let key = key.as_str();
    let value = coded(alloc, value)?;
    let value = value.as_str();
    let whole = json!(in alloc; {"request_put": {"key": key, "lease": lease, "value": value}})?;
    Ok(whole)
}

/// Bytes in base64.
#[tactic(auto, unfolding(crate::specs::Calls::coded))]
pub fn coded(alloc: Global, bytes: &[u8]) -> Result<String, NoMemory>
    ensures { IfOk result (λ text. string_bytes text ≡ coded bytes.now) }
{
    let text = STANDARD.encode(alloc, bytes)?;
    Ok(text)
}
