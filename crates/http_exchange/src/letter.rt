//! Requests to a service that is no node.
ghost use Rattle.std.specs.Prelude.{◌≡◌, ◌++◌, decimal, length, IfOk, OnOk};
ghost use Rattle.http_exchange.specs.Letters.{field, host_line, json_line, letter_line, letter_text, size_line};

use lf_base::{NoMemory, Text};
use std::alloc::Global;

/// A request by its method and path, with a body of JSON, and the most bytes of its reply's body.
///
/// It is of HTTP/1.0, so a reply comes as it is: with its length, or up to the link's end.
#[derive(Clone, Copy)]
pub struct Letter<'a> {
    pub method: &'a [u8],
    pub path: &'a [u8],
    pub body: &'a [u8],
    pub limit: u64,
}

/// The whole text of a letter to this host.
pub(crate) fn letter_text(
    alloc: Global,
    host: &Text,
    letter: Letter<'_>,
) -> Result<Vec<u8>, NoMemory>
    ensures { IfOk result (λ text. text.items ≡ letter_text letter.entry.method.now letter.entry.path.now host.now letter.entry.body.now) }
{
    let mut text = Vec::new(alloc);
    put_first(letter.method, letter.path, &mut text)?;
    put_host(host.bytes(), &mut text)?;
    put_json(&mut text)?;
    put_size(alloc, letter.body.len() as u64, &mut text)?;
    put(letter.body, &mut text)?;
    Ok(text)
}

#[tactic(auto, unfolding(crate::specs::Letters::letter_line))]
fn put_first(method: &[u8], path: &[u8], text: &mut Vec<u8>) -> Result<(), NoMemory>
    ensures { OnOk result (text.new.items ≡ text.old.items ++ letter_line method.now path.now) }
{
    put(method, text)?;
    put(b" ", text)?;
    put(path, text)?;
    put(b" HTTP/1.0\r\n", text)
}

#[tactic(auto, unfolding(crate::specs::Letters::host_line))]
fn put_host(host: &[u8], text: &mut Vec<u8>) -> Result<(), NoMemory>
    ensures { OnOk result (text.new.items ≡ text.old.items ++ host_line host.now) }
{
    put_field(b"Host", host, text)
}

#[tactic(auto, unfolding(crate::specs::Letters::json_line))]
fn put_json(text: &mut Vec<u8>) -> Result<(), NoMemory>
    ensures { OnOk result (text.new.items ≡ text.old.items ++ json_line) }
{
    put_field(b"Content-Type", b"application/json", text)
}

/// The field of the body's length, and the end of the head.
#[tactic(auto, unfolding(crate::specs::Letters::size_line))]
fn put_size(alloc: Global, size: u64, text: &mut Vec<u8>) -> Result<(), NoMemory>
    ensures { OnOk result (text.new.items ≡ text.old.items ++ size_line size) }
{
    let digits = format!(in alloc; "{size}")?;
    put_field(b"Content-Length", digits.as_bytes(), text)?;
    put(b"\r\n", text)
}

#[tactic(auto, unfolding(crate::specs::Letters::field))]
fn put_field(name: &[u8], value: &[u8], text: &mut Vec<u8>) -> Result<(), NoMemory>
    ensures { OnOk result (text.new.items ≡ text.old.items ++ field name.now value.now) }
{
    put(name, text)?;
    put(b": ", text)?;
    put(value, text)?;
    put(b"\r\n", text)
}

fn put(bytes: &[u8], text: &mut Vec<u8>) -> Result<(), NoMemory>
    ensures { OnOk result (text.new.items ≡ text.old.items ++ bytes.now) }
{
    text.extend_from_slice(bytes)?;
    Ok(())
}
