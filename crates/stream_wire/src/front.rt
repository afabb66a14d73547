//! What the bytes of a frame so far begin with.

ghost use Rattle.std.specs.Prelude.{◌≡◌, ◌+◌, ◌<◌, ◌≤◌, ◌^◌, ◌↔◌, None, Some, IfOk, OnOk, IfErr, IfSome, IfNone, length};
ghost use Rattle.stream_wire.specs.Front.{head_fault, is_kind as counts_as_kind, is_name_len as fits_name, is_body_len as fits_body, frame_len_at, HasBadName, GivesName, RefusesName};

use crate::WireFault;
use lf_base::{Name, NameFault, be32_at, be64_at};
use std::alloc::Global;

/// The size of the fields in front of the name.
pub(crate) const FIELDS: usize = 16;

/// Refuses the first fault of the first 16 bytes, as far as they are there.
#[tactic(auto, unfolding(crate::specs::Front::head_fault))]
pub(crate) fn check_fields(limit: u64, bytes: &[u8]) -> Result<(), WireFault>
    ensures ok { OnOk result (head_fault limit bytes.now ≡ None) }
    ensures fault { IfErr result (λ fault. head_fault limit bytes.now ≡ Some fault) }
{
    if bytes.len() < 4 {
        return Ok(());
    }
    let kind = be32_at(bytes, 0);
    if !is_kind(kind) {
        return Err(WireFault::Kind { kind });
    }
    if bytes.len() < 8 {
        return Ok(());
    }
    if !is_name_len(kind, be32_at(bytes, 4)) {
        return Err(WireFault::NameText);
    }
    if bytes.len() < FIELDS {
        return Ok(());
    }
    let len = be64_at(bytes, 8);
    if limit < len {
        return Err(WireFault::TooLong { len });
    }
    if !is_body_len(kind, len) {
        return Err(WireFault::Length);
    }
    Ok(())
}

fn is_kind(kind: u32) -> bool
    ensures { result ≡ counts_as_kind kind }
{
    0 < kind && kind < 5
}

fn is_name_len(kind: u32, len: u32) -> bool
    ensures { result ≡ fits_name kind len }
{
    if kind == 3 {
        len == 0
    } else {
        0 < len && len < 65
    }
}

fn is_body_len(kind: u32, len: u64) -> bool
    ensures { result ≡ fits_body kind len }
{
    match kind {
        1 => true,
        2 => len == 16,
        _ => len == 0,
    }
}

/// The length of the frame, where it has a length that can be held.
pub(crate) fn frame_len(bytes: &[u8]) -> Option<usize>
    requires { 16 ≤ length bytes.now }
    ensures some { IfSome result (λ len. len ≡ frame_len_at bytes.now) }
    ensures none { IfNone result (2 ^ 64 ≤ frame_len_at bytes.now) }
{
    let named = FIELDS + be32_at(bytes, 4) as usize;
    named.checked_add(be64_at(bytes, 8) as usize)
}

/// The name, where it is there; none where there is to be none, or it has not come yet.
pub(crate) fn name_of(alloc: Global, bytes: &[u8]) -> Result<Option<Name>, WireFault>
    requires { 16 ≤ length bytes.now }
    ensures good { OnOk result (HasBadName bytes.now → ⊥) }
    ensures name { IfOk result (GivesName bytes.now) }
    ensures bad { IfErr result (RefusesName bytes.now) }
{
    let len = be32_at(bytes, 4) as usize;
    let (_, rest) = bytes.split_at(FIELDS);
    if len == 0 || rest.len() < len {
        return Ok(None);
    }
    let (name, _) = rest.split_at(len);
    match Name::read(alloc, name) {
        Ok(name) => Ok(Some(name)),
        Err(NameFault::NoMemory) => Err(WireFault::NoMemory),
        Err(_) => Err(WireFault::NameText),
    }
}
