//! The call that a method and a target name.

ghost use Rattle.std.specs.Prelude.{◌≡◌, ◌++◌, ◌↔◌, codes, IfOk, IsTrue};
ghost use Rattle.stream_wire.specs.declared.call.Call.TheVariants as call;
ghost use Rattle.stream_wire.specs.Call.{Names, NamesDatabase};

use crate::Call;
use lf_base::{Name, NameFault, NoMemory};
use std::alloc::Global;

/// The call of a request. Upper and lower case differ, and a percent sign stands for itself.
pub(crate) fn call_of(alloc: Global, method: &[u8], target: &[u8]) -> Result<Call, NoMemory>
    ensures { IfOk result (Names method.now target.now) }
{
    if is_same(method, b"POST") {
        return post(alloc, target);
    }
    if is_same(method, b"GET") {
        return get(alloc, target);
    }
    if is_same(method, b"DELETE") && is_same(target, b"/halt") {
        return Ok(Call::HaltBack);
    }
    Ok(Call::Other)
}

fn is_same(bytes: &[u8], word: &[u8]) -> bool
    ensures { IsTrue result ↔ (bytes.now ≡ word.now) }
{
    bytes == word
}

fn post(alloc: Global, target: &[u8]) -> Result<Call, NoMemory>
    ensures { IfOk result (Names (codes "POST") target.now) }
{
    if is_same(target, b"/stream") {
        return Ok(Call::Stream);
    }
    if is_same(target, b"/halt") {
        return Ok(Call::Halt);
    }
    if is_same(target, b"/tx") {
        return Ok(Call::Tx);
    }
    if is_same(target, b"/lease") {
        return Ok(Call::Lease);
    }
    match database_in(alloc, target, b"/import?name=")? {
        Some(name) => Ok(Call::Import { name }),
        None => Ok(Call::Other),
    }
}

fn get(alloc: Global, target: &[u8]) -> Result<Call, NoMemory>
    ensures { IfOk result (Names (codes "GET") target.now) }
{
    if is_same(target, b"/info") {
        return Ok(Call::Info);
    }
    if is_same(target, b"/metrics") {
        return Ok(Call::Metrics);
    }
    if is_same(target, b"/events") {
        return Ok(Call::Events);
    }
    match database_in(alloc, target, b"/export?name=")? {
        Some(name) => Ok(Call::Export { name }),
        None => Ok(Call::Other),
    }
}

/// The name of a database behind a path.
fn database_in(alloc: Global, target: &[u8], path: &[u8]) -> Result<Option<Name>, NoMemory>
    ensures { IfOk result (NamesDatabase path.now target.now) }
{
    if target.len() < path.len() {
        return Ok(None);
    }
    let (front, name) = target.split_at(path.len());
    if !is_same(front, path) {
        return Ok(None);
    }
    match Name::read(alloc, name) {
        Ok(name) => Ok(Some(name)),
        Err(NameFault::NoMemory) => Err(NoMemory),
        Err(_) => Ok(None),
    }
}
