//! Requests read.

ghost use Rattle.std.specs.Prelude.{◌≡◌, ◌^◌, ◌<◌, ℕ, List, IfOk, IfErr, IfSome, IfNone, string_bytes};
ghost use Rattle.serde_json.specs.Data.{object};
ghost use Rattle.serde_json.specs.View.{members_view};
ghost use Rattle.lease_core.specs.declared.lease_ask.LeaseAsk.TheVariants as ask;
ghost use Rattle.lease_core.specs.Bodies.{IsJson, ask_members, IsAskData, BreaksBody, IsShapeOnly, NoAsk, term_members, IsTermOp};

use crate::members::{is_end, members_of, take_node, take_number, take_text};
use crate::{BodyFault, LeaseAsk};
use lf_base::Text;
use serde_json::{Map, Value};
use std::alloc::Global;

/// The request that a body is. Keys come in any order; of a key that is repeated the last stands.
pub fn read_body(alloc: Global, bytes: &[u8]) -> Result<LeaseAsk, BodyFault>
    ensures ok { IfOk result (λ ask. IsJson bytes.now (object (ask_members ask))) }
    ensures fault { IfErr result (BreaksBody IsAskData bytes.now) }
{
    let mut members = members_of(alloc, bytes)?;
    ask_of(alloc, &mut members)
}

fn ask_of(alloc: Global, members: &mut Map<String, Value>) -> Result<LeaseAsk, BodyFault>
    ensures ok { IfOk result (λ ask. members_view members.old.entries ≡ ask_members ask) }
    ensures fault { IfErr result (IsShapeOnly (NoAsk (members_view members.old.entries))) }
{
    match members.len() {
        1 => info(members),
        3 => term_ask(members),
        4 => acquire(alloc, members),
        _ => Err(BodyFault::Shape),
    }
}

fn info(members: &mut Map<String, Value>) -> Result<LeaseAsk, BodyFault>
    ensures ok { IfOk result (λ ask. members_view members.old.entries ≡ ask_members ask) }
    ensures fault { IfErr result (IsShapeOnly (members_view members.old.entries ≡ ask_members ask.Info → ⊥)) }
{
    match take_text(members, "op") {
        Some(op) if op.as_str() == "info" && is_end(members) => Ok(LeaseAsk::Info),
        _ => Err(BodyFault::Shape),
    }
}

fn term_ask(members: &mut Map<String, Value>) -> Result<LeaseAsk, BodyFault>
    ensures ok { IfOk result (λ ask. members_view members.old.entries ≡ ask_members ask) }
    ensures fault { IfErr result (IsShapeOnly ((op : List ℕ) (node term : ℕ) → node < 2 ^ 64 → IsTermOp op
        → members_view members.old.entries ≡ term_members op node term → ⊥)) }
{
    let Some((node, op, term)) = term_parts(members) else {
        return Err(BodyFault::Shape);
    };
    match op.as_str() {
        "renew" => Ok(LeaseAsk::Renew { node, term }),
        "release" => Ok(LeaseAsk::Release { node, term }),
        _ => Err(BodyFault::Shape),
    }
}

fn term_parts(members: &mut Map<String, Value>) -> Option<(u64, String, u64)>
    ensures found { IfSome result (λ p. members_view members.old.entries ≡ term_members (string_bytes p.1) p.0 p.2) }
    ensures none { IfNone result ((op : List ℕ) (node term : ℕ) → node < 2 ^ 64
        → members_view members.old.entries ≡ term_members op node term → ⊥) }
{
    let node = take_node(members, "node")?;
    let op = take_text(members, "op")?;
    let term = take_number(members, "term")?;
    if is_end(members) {
        Some((node, op, term))
    } else {
        None
    }
}

fn acquire(alloc: Global, members: &mut Map<String, Value>) -> Result<LeaseAsk, BodyFault>
    ensures ok { IfOk result (λ ask. members_view members.old.entries ≡ ask_members ask) }
    ensures fault { IfErr result (IsShapeOnly ((node : ℕ) (url host : List ℕ) → node < 2 ^ 64
        → members_view members.old.entries ≡ ask_members (ask.Acquire node url host) → ⊥)) }
{
    let Some((node, url, host)) = acquire_parts(members) else {
        return Err(BodyFault::Shape);
    };
    Ok(LeaseAsk::Acquire {
        node,
        url: Text::of(alloc, url.as_str())?,
        host: Text::of(alloc, host.as_str())?,
    })
}

fn acquire_parts(members: &mut Map<String, Value>) -> Option<(u64, String, String)>
    ensures found { IfSome result (λ p. members_view members.old.entries ≡ ask_members (ask.Acquire p.0 (string_bytes p.1) (string_bytes p.2))) }
    ensures none { IfNone result ((node : ℕ) (url host : List ℕ) → node < 2 ^ 64
        → members_view members.old.entries ≡ ask_members (ask.Acquire node url host) → ⊥) }
{
    let host = take_text(members, "host")?;
    let node = take_node(members, "node")?;
    let op = take_text(members, "op")?;
    let url = take_text(members, "url")?;
    if is_end(members) && op.as_str() == "acquire" {
        Some((node, url, host))
    } else {
        None
    }
}
