//! The members of a JSON object (RFC 8259), one behind another.
ghost use Rattle.std.specs.Prelude.{◌≡◌, ◌++◌, codes, IfOk, OnOk};
ghost use Rattle.serde_json.specs.Data.{string};
ghost use Rattle.serde_json.specs.Written.{compact_text};
ghost use Rattle.stream_primary.specs.JsonText.{member_of, number_member, quoted_member, text_member, truth, truth_member, value_of};

use crate::metric::put;
use lf_base::{NoMemory, Text};
use serde_json::Value;
use std::alloc::Global;

/// Appends a member whose value is this text.
#[tactic(auto, unfolding(crate::specs::JsonText::member_of))]
fn put_member(key: &[u8], value: &[u8], out: &mut Vec<u8>) -> Result<(), NoMemory>
    ensures { OnOk result (out.new.items ≡ out.old.items ++ member_of key.now value.now) }
{
    put(out, b",\"")?;
    put(out, key)?;
    put(out, b"\":")?;
    put(out, value)
}

/// A number.
#[tactic(auto, unfolding(crate::specs::JsonText::number_member))]
pub fn put_number(alloc: Global, key: &[u8], number: u64, out: &mut Vec<u8>) -> Result<(), NoMemory>
    ensures { OnOk result (out.new.items ≡ out.old.items ++ number_member key.now number) }
{
    let digits = format!(in alloc; "{number}")?;
    put_member(key, digits.as_bytes(), out)
}

/// Text that needs no escapes.
#[tactic(auto, unfolding(crate::specs::JsonText::quoted_member))]
pub fn put_quoted(key: &[u8], text: &[u8], out: &mut Vec<u8>) -> Result<(), NoMemory>
    ensures { OnOk result (out.new.items ≡ out.old.items ++ quoted_member key.now text.now) }
{
    put(out, b",\"")?;
    put(out, key)?;
    put(out, b"\":\"")?;
    put(out, text)?;
    put(out, b"\"")
}

/// A condition.
#[tactic(auto, unfolding(crate::specs::JsonText::truth_member))]
pub fn put_truth(key: &[u8], holds: bool, out: &mut Vec<u8>) -> Result<(), NoMemory>
    ensures { OnOk result (out.new.items ≡ out.old.items ++ truth_member key.now holds) }
{
    put_member(key, truth(holds), out)
}

fn truth(holds: bool) -> &'static [u8]
    ensures { result.now ≡ truth holds }
{
    match holds {
        true => b"true",
        false => b"false",
    }
}

/// Any text, or null where there is none.
#[tactic(auto, unfolding(crate::specs::JsonText::text_member))]
pub fn put_text(
    alloc: Global,
    key: &[u8],
    text: &Option<Text>,
    out: &mut Vec<u8>,
) -> Result<(), NoMemory>
    ensures { OnOk result (out.new.items ≡ out.old.items ++ text_member key.now text.now) }
{
    let value = value_of(alloc, text)?;
    put_member(key, value.as_slice(), out)
}

fn value_of(alloc: Global, text: &Option<Text>) -> Result<Vec<u8>, NoMemory>
    ensures { IfOk result (λ value. value.items ≡ value_of text.now) }
{
    match text {
        Some(text) => escaped(alloc, text),
        None => Ok(Vec::from_slice(alloc, b"null")?),
    }
}

/// A text with its escapes, between quotation marks.
fn escaped(alloc: Global, text: &Text) -> Result<Vec<u8>, NoMemory>
    ensures { IfOk result (λ value. value.items ≡ compact_text (string text.now)) }
{
    let value = Value::try_from_str(alloc, text.as_str())?;
    let text = value.to_vec(alloc)?;
    Ok(text)
}
