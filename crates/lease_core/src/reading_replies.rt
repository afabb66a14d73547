//! Replies read.

ghost use Rattle.std.specs.Prelude.{◌≡◌, ◌↔◌, ℕ, List, IfOk, IfErr, IfSome, IfNone, IsTrue, string_bytes};
ghost use Rattle.serde_json.specs.Data.{object};
ghost use Rattle.serde_json.specs.View.{members_view};
ghost use Rattle.lease_core.specs.declared.lease_reply.LeaseKind.{LeaseKind};
ghost use Rattle.lease_core.specs.declared.lease_reply.LeaseReply.TheVariants as reply;
ghost use Rattle.lease_core.specs.Bodies.{IsJson, kind_name, reply_members, FitsKind, FitsReply, IsReplyData, BreaksBody, IsShapeOnly, NoReply};

use crate::members::{is_end, members_of, take_number, take_text};
use crate::{BodyFault, LeaseKind, LeaseReply};
use lf_base::Text;
use serde_json::{Map, Value};
use std::alloc::Global;

/// The reply that a body is. Keys come in any order; of a key that is repeated the last stands.
pub fn read_reply(alloc: Global, bytes: &[u8]) -> Result<LeaseReply, BodyFault>
    ensures ok { IfOk result (λ reply. IsJson bytes.now (object (reply_members reply))) }
    ensures fits { IfOk result FitsReply }
    ensures fault { IfErr result (BreaksBody IsReplyData bytes.now) }
{
    let mut members = members_of(alloc, bytes)?;
    reply_of(alloc, &mut members)
}

fn reply_of(alloc: Global, members: &mut Map<String, Value>) -> Result<LeaseReply, BodyFault>
    ensures ok { IfOk result (λ reply. members_view members.old.entries ≡ reply_members reply) }
    ensures fits { IfOk result FitsReply }
    ensures fault { IfErr result (IsShapeOnly (NoReply (members_view members.old.entries))) }
{
    match members.len() {
        0 => Ok(LeaseReply::Empty),
        1 => renewed(members),
        2 => refused(members),
        4 => grant(alloc, members),
        _ => Err(BodyFault::Shape),
    }
}

fn renewed(members: &mut Map<String, Value>) -> Result<LeaseReply, BodyFault>
    ensures ok { IfOk result (λ reply. members_view members.old.entries ≡ reply_members reply) }
    ensures fits { IfOk result FitsReply }
    ensures fault { IfErr result (IsShapeOnly ((ttl : ℕ) → members_view members.old.entries ≡ reply_members (reply.Renewed ttl) → ⊥)) }
{
    match take_number(members, "ttl") {
        Some(ttl) if is_end(members) => Ok(LeaseReply::Renewed { ttl }),
        _ => Err(BodyFault::Shape),
    }
}

fn refused(members: &mut Map<String, Value>) -> Result<LeaseReply, BodyFault>
    ensures ok { IfOk result (λ reply. members_view members.old.entries ≡ reply_members reply) }
    ensures fits { IfOk result FitsReply }
    ensures fault { IfErr result (IsShapeOnly ((kind : LeaseKind) (until : ℕ) → FitsKind kind until
        → members_view members.old.entries ≡ reply_members (reply.Refused kind until) → ⊥)) }
{
    match refusal_parts(members) {
        Some((kind, until)) if fits_kind(kind, until) => Ok(LeaseReply::Refused { kind, until }),
        _ => Err(BodyFault::Shape),
    }
}

fn refusal_parts(members: &mut Map<String, Value>) -> Option<(LeaseKind, u64)>
    ensures found { IfSome result (λ p. members_view members.old.entries ≡ reply_members (reply.Refused p.0 p.1)) }
    ensures none { IfNone result ((kind : LeaseKind) (until : ℕ)
        → members_view members.old.entries ≡ reply_members (reply.Refused kind until) → ⊥) }
{
    let name = take_text(members, "error")?;
    let until = take_number(members, "until")?;
    let kind = kind_of(name.as_str())?;
    if is_end(members) {
        Some((kind, until))
    } else {
        None
    }
}

fn kind_of(name: &str) -> Option<LeaseKind>
    ensures found { IfSome result (λ kind. name.now ≡ kind_name kind) }
    ensures none { IfNone result ((kind : LeaseKind) → name.now ≡ kind_name kind → ⊥) }
{
    match name {
        "Held" => Some(LeaseKind::Held),
        "Unknown" => Some(LeaseKind::Unknown),
        "Late" => Some(LeaseKind::Late),
        "Limit" => Some(LeaseKind::Limit),
        _ => None,
    }
}

/// A refusal that knows of no end says 0.
fn fits_kind(kind: LeaseKind, until: u64) -> bool
    ensures { IsTrue result ↔ FitsKind kind until }
{
    match kind {
        LeaseKind::Held | LeaseKind::Late => true,
        LeaseKind::Unknown | LeaseKind::Limit => until == 0,
    }
}

fn grant(alloc: Global, members: &mut Map<String, Value>) -> Result<LeaseReply, BodyFault>
    ensures ok { IfOk result (λ reply. members_view members.old.entries ≡ reply_members reply) }
    ensures fits { IfOk result FitsReply }
    ensures fault { IfErr result (IsShapeOnly ((host : List ℕ) (term ttl : ℕ) (url : List ℕ)
        → members_view members.old.entries ≡ reply_members (reply.Grant host term ttl url) → ⊥)) }
{
    let Some((host, term, ttl, url)) = grant_parts(members) else {
        return Err(BodyFault::Shape);
    };
    Ok(LeaseReply::Grant {
        host: Text::of(alloc, host.as_str())?,
        term,
        ttl,
        url: Text::of(alloc, url.as_str())?,
    })
}

fn grant_parts(members: &mut Map<String, Value>) -> Option<(String, u64, u64, String)>
    ensures found { IfSome result (λ p. members_view members.old.entries ≡ reply_members (reply.Grant (string_bytes p.0) p.1 p.2 (string_bytes p.3))) }
    ensures none { IfNone result ((host : List ℕ) (term ttl : ℕ) (url : List ℕ)
        → members_view members.old.entries ≡ reply_members (reply.Grant host term ttl url) → ⊥) }
{
    let host = take_text(members, "host")?;
    let term = take_number(members, "term")?;
    let ttl = take_number(members, "ttl")?;
    let url = take_text(members, "url")?;
    if is_end(members) {
        Some((host, term, ttl, url))
    } else {
        None
    }
}
