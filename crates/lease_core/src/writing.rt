//! Bodies written: the members in the ascending order of their keys, without blanks.

ghost use Rattle.std.specs.Prelude.{◌≡◌, ◌++◌, IfOk, OnOk, OnErr};
ghost use Rattle.serde_json.specs.Data.{object};
ghost use Rattle.serde_json.specs.View.{view};
ghost use Rattle.serde_json.specs.Written.{compact_text};
ghost use Rattle.lease_core.specs.declared.lease_ask.LeaseAsk.TheVariants as ask;
ghost use Rattle.lease_core.specs.declared.lease_reply.LeaseReply.TheVariants as reply;
ghost use Rattle.lease_core.specs.Bodies.{IsJson, ask_members, term_members, kind_name, reply_members};

use crate::texts::as_str;
use crate::{LeaseAsk, LeaseKind, LeaseReply};
use lf_base::{NoMemory, Text, hex16};
use serde_json::{Map, Value, json};
use std::alloc::Global;

/// Appends the body of a request.
pub fn write_ask(alloc: Global, ask: &LeaseAsk, out: &mut Vec<u8>) -> Result<(), NoMemory>
    ensures ok { OnOk result (out.new.items ≡ out.old.items ++ compact_text (object (ask_members ask.now))) }
    ensures reads_back { OnOk result (IsJson (compact_text (object (ask_members ask.now))) (object (ask_members ask.now))) }
    ensures err { OnErr result (out.new.items ≡ out.old.items) }
{
    let text = ask_value(alloc, ask)?.to_vec(alloc)?;
    out.extend_from_slice(text.as_slice())?;
    Ok(())
}

/// Appends the body of a reply.
pub fn write_body(alloc: Global, reply: &LeaseReply, out: &mut Vec<u8>) -> Result<(), NoMemory>
    ensures ok { OnOk result (out.new.items ≡ out.old.items ++ compact_text (object (reply_members reply.now))) }
    ensures reads_back { OnOk result (IsJson (compact_text (object (reply_members reply.now))) (object (reply_members reply.now))) }
    ensures err { OnErr result (out.new.items ≡ out.old.items) }
{
    let text = reply_value(alloc, reply)?.to_vec(alloc)?;
    out.extend_from_slice(text.as_slice())?;
    Ok(())
}

fn ask_value(alloc: Global, ask: &LeaseAsk) -> Result<Value, NoMemory>
    ensures { IfOk result (λ value. view value ≡ object (ask_members ask.now)) }
{
    match ask {
        LeaseAsk::Acquire { node, url, host } => acquire_value(alloc, *node, url, host),
        LeaseAsk::Renew { node, term } => term_value(alloc, "renew", *node, *term),
        LeaseAsk::Release { node, term } => term_value(alloc, "release", *node, *term),
        LeaseAsk::Info => info_value(alloc),
    }
}

fn info_value(alloc: Global) -> Result<Value, NoMemory>
    ensures { IfOk result (λ value. view value ≡ object (ask_members ask.Info)) }
{
    let value = json!(in alloc; {"op": "info"})?;
    Ok(value)
}

fn acquire_value(alloc: Global, node: u64, url: &Text, host: &Text) -> Result<Value, NoMemory>
    ensures { IfOk result (λ value. view value ≡ object (ask_members (ask.Acquire node url.now host.now))) }
{
    let digits = hex16(node);
    let node = as_str(&digits)?;
    let url = as_str(url.bytes())?;
    let host = as_str(host.bytes())?;
    let value = json!(in alloc; {"op": "acquire", "node": node, "url": url, "host": host})?;
    Ok(value)
}

fn term_value(alloc: Global, op: &str, node: u64, term: u64) -> Result<Value, NoMemory>
    ensures { IfOk result (λ value. view value ≡ object (term_members op.now node term)) }
{
    let digits = hex16(node);
    let node = as_str(&digits)?;
    let value = json!(in alloc; {"op": op, "node": node, "term": term})?;
    Ok(value)
}

fn reply_value(alloc: Global, reply: &LeaseReply) -> Result<Value, NoMemory>
    ensures { IfOk result (λ value. view value ≡ object (reply_members reply.now)) }
{
    match reply {
        LeaseReply::Grant {
            host,
            term,
            ttl,
            url,
        } => grant_value(alloc, host, *term, *ttl, url),
        LeaseReply::Renewed { ttl } => renewed_value(alloc, *ttl),
        LeaseReply::Empty => Ok(Value::Object(Map::new(alloc))),
        LeaseReply::Refused { kind, until } => refused_value(alloc, *kind, *until),
    }
}

fn grant_value(
    alloc: Global,
    host: &Text,
    term: u64,
    ttl: u64,
    url: &Text,
) -> Result<Value, NoMemory>
    ensures { IfOk result (λ value. view value ≡ object (reply_members (reply.Grant host.now term ttl url.now))) }
{
    let host = as_str(host.bytes())?;
    let url = as_str(url.bytes())?;
    let value = json!(in alloc; {"host": host, "term": term, "ttl": ttl, "url": url})?;
    Ok(value)
}

fn renewed_value(alloc: Global, ttl: u64) -> Result<Value, NoMemory>
    ensures { IfOk result (λ value. view value ≡ object (reply_members (reply.Renewed ttl))) }
{
    let value = json!(in alloc; {"ttl": ttl})?;
    Ok(value)
}

fn refused_value(alloc: Global, kind: LeaseKind, until: u64) -> Result<Value, NoMemory>
    ensures { IfOk result (λ value. view value ≡ object (reply_members (reply.Refused kind until))) }
{
    let name = kind_name(kind);
    let value = json!(in alloc; {"error": name, "until": until})?;
    Ok(value)
}

fn kind_name(kind: LeaseKind) -> &'static str
    ensures { result.now ≡ kind_name kind }
{
    match kind {
        LeaseKind::Held => "Held",
        LeaseKind::Unknown => "Unknown",
        LeaseKind::Late => "Late",
        LeaseKind::Limit => "Limit",
    }
}
