//! The members of a JSON object, taken one after another in the order of their keys.

ghost use Rattle.std.specs.Prelude.{◌≡◌, ℕ, ◌^◌, ◌<◌, List, IfSome, IfNone, IfOk, IfErr, string_bytes, ◌↔◌, IsTrue};
ghost use Rattle.serde_json.specs.Data.{Data, string, number, unsigned, object, Members, member, no_members};
ghost use Rattle.serde_json.specs.View.{view, members_view};
ghost use Rattle.lease_core.specs.Bodies.{IsJson, IsObject, BreaksBody, node_text};

use crate::BodyFault;
use crate::json::read_json;
use lf_base::read_hex16;
use serde_json::{Map, Value};
use std::alloc::Global;

/// The members of the object that the bytes are.
pub(crate) fn members_of(alloc: Global, bytes: &[u8]) -> Result<Map<String, Value>, BodyFault>
    ensures ok { IfOk result (λ members. IsJson bytes.now (object (members_view members.entries))) }
    ensures fault { IfErr result (BreaksBody IsObject bytes.now) }
{
    match read_json(alloc, bytes)? {
        Value::Object(members) => Ok(members),
        _other => Err(BodyFault::Shape),
    }
}

/// The next member's value, where it has this key.
fn take_value(members: &mut Map<String, Value>, key: &str) -> Option<Value>
    ensures found { IfSome result (λ v. members_view members.old.entries ≡ member key.now (view v) (members_view members.new.entries)) }
    ensures none { IfNone result ((d : Data) (rest : Members) → members_view members.old.entries ≡ member key.now d rest → ⊥) }
{
    let (name, value) = members.pop_first()?;
    if name.as_str() == key {
        Some(value)
    } else {
        None
    }
}

/// The same, where it is text.
pub(crate) fn take_text(members: &mut Map<String, Value>, key: &str) -> Option<String>
    ensures found { IfSome result (λ s. members_view members.old.entries ≡ member key.now (string (string_bytes s)) (members_view members.new.entries)) }
    ensures none { IfNone result ((s : List ℕ) (rest : Members) → members_view members.old.entries ≡ member key.now (string s) rest → ⊥) }
{
    match take_value(members, key)? {
        Value::String(text) => Some(text),
        _ => None,
    }
}

/// The same, where it is a number of 64 bits.
pub(crate) fn take_number(members: &mut Map<String, Value>, key: &str) -> Option<u64>
    ensures found { IfSome result (λ n. members_view members.old.entries ≡ member key.now (number (unsigned n)) (members_view members.new.entries)) }
    ensures none { IfNone result ((n : ℕ) (rest : Members) → members_view members.old.entries ≡ member key.now (number (unsigned n)) rest → ⊥) }
{
    take_value(members, key)?.as_u64()
}

/// The same, where it is a node's number.
pub(crate) fn take_node(members: &mut Map<String, Value>, key: &str) -> Option<u64>
    ensures found { IfSome result (λ n. members_view members.old.entries ≡ member key.now (node_text n) (members_view members.new.entries)) }
    ensures none { IfNone result ((n : ℕ) (rest : Members) → n < 2 ^ 64 → members_view members.old.entries ≡ member key.now (node_text n) rest → ⊥) }
{
    read_hex16(take_text(members, key)?.as_bytes())
}

/// Whether no member is left.
pub(crate) fn is_end(members: &Map<String, Value>) -> bool
    ensures { IsTrue result ↔ (members_view members.now.entries ≡ no_members) }
{
    members.is_empty()
}
