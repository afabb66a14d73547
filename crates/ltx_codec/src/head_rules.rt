//! The rules of the header's fields, in the order of the bytes. A field that is not there yet
//! breaks none.
ghost use Rattle.std.specs.Prelude.{OnOk, IfErr};
ghost use Rattle.ltx_codec.specs.HeaderRules.{HasSoundFields, IsOfStart};
ghost use Rattle.ltx_codec.specs.Decoding.{IsWithin, IsRefusedWithin};
ghost use Rattle.ltx_codec.specs.Places.{IsEarliest, IsFound};

use crate::fault::LtxFault;
use crate::fields::{COMMIT, FLAGS, MAX, MIN, PAGE_SIZE, PRE};
use crate::rules::is_flagged;
use lf_base::{be32_at, be64_at};
use lf_sqlite_pages::{is_page_size, is_within_limit};

const MAGIC: [u8; 4] = *b"LTX1";

fn check_magic(bytes: &[u8]) -> Result<(), LtxFault>
    ensures ok { OnOk result (HasSoundFields bytes.now 7) }
    ensures fault { IfErr result (IsEarliest bytes.now) }
    ensures found { IfErr result IsFound }
    ensures start { IfErr result IsOfStart }
{
    if bytes.len() < 4 {
        return Ok(());
    }
    let (front, _) = bytes.split_at(4);
    if front == MAGIC.as_slice() {
        Ok(())
    } else {
        Err(LtxFault::Magic)
    }
}

fn check_flags(bytes: &[u8]) -> Result<(), LtxFault>
    requires { HasSoundFields bytes.now 7 }
    ensures ok { OnOk result (HasSoundFields bytes.now 11) }
    ensures fault { IfErr result (IsEarliest bytes.now) }
    ensures found { IfErr result IsFound }
    ensures start { IfErr result IsOfStart }
{
    if bytes.len() < 8 {
        return Ok(());
    }
    match be32_at(bytes, FLAGS) {
        0 => Ok(()),
        flags if flags % 2 == 1 => Err(LtxFault::Compressed),
        _ => Err(LtxFault::UnknownFlags),
    }
}

fn check_page_size(bytes: &[u8]) -> Result<(), LtxFault>
    requires { HasSoundFields bytes.now 11 }
    ensures ok { OnOk result (HasSoundFields bytes.now 15) }
    ensures fault { IfErr result (IsEarliest bytes.now) }
    ensures found { IfErr result IsFound }
    ensures start { IfErr result IsOfStart }
{
    if bytes.len() < 12 {
        return Ok(());
    }
    if is_page_size(be32_at(bytes, PAGE_SIZE)) {
        Ok(())
    } else {
        Err(LtxFault::PageSize)
    }
}

fn check_commit(bytes: &[u8]) -> Result<(), LtxFault>
    requires { HasSoundFields bytes.now 15 }
    ensures ok { OnOk result (HasSoundFields bytes.now 23) }
    ensures fault { IfErr result (IsEarliest bytes.now) }
    ensures found { IfErr result IsFound }
{
    if bytes.len() < 16 {
        return Ok(());
    }
    if is_within_limit(be32_at(bytes, PAGE_SIZE), be32_at(bytes, COMMIT)) {
        Ok(())
    } else {
        Err(LtxFault::Commit)
    }
}

#[tactic(auto, using(crate::proofs::HeaderLemmas::earliest_field))]
fn check_min(bytes: &[u8]) -> Result<(), LtxFault>
    requires { HasSoundFields bytes.now 23 }
    ensures ok { OnOk result (HasSoundFields bytes.now 31) }
    ensures fault { IfErr result (IsEarliest bytes.now) }
    ensures found { IfErr result IsFound }
{
    if bytes.len() < 24 {
        return Ok(());
    }
    if be64_at(bytes, MIN) > 0 {
        Ok(())
    } else {
        Err(LtxFault::Txid)
    }
}

#[tactic(auto, using(crate::proofs::HeaderLemmas::earliest_field))]
fn check_max(bytes: &[u8]) -> Result<(), LtxFault>
    requires { HasSoundFields bytes.now 31 }
    ensures ok { OnOk result (HasSoundFields bytes.now 47) }
    ensures fault { IfErr result (IsEarliest bytes.now) }
    ensures found { IfErr result IsFound }
{
    if bytes.len() < 32 {
        return Ok(());
    }
    if be64_at(bytes, MIN) <= be64_at(bytes, MAX) {
        Ok(())
    } else {
        Err(LtxFault::Txid)
    }
}

fn check_pre(bytes: &[u8]) -> Result<(), LtxFault>
    requires { HasSoundFields bytes.now 47 }
    ensures ok { OnOk result (HasSoundFields bytes.now 103) }
    ensures fault { IfErr result (IsEarliest bytes.now) }
    ensures found { IfErr result IsFound }
{
    if bytes.len() < 48 {
        return Ok(());
    }
    let pre = be64_at(bytes, PRE);
    let meets = if be64_at(bytes, MIN) == 1 {
        pre == 0
    } else {
        is_flagged(pre)
    };
    if meets { Ok(()) } else { Err(LtxFault::PreSum) }
}

/// Magic, flags and page size.
fn check_start(bytes: &[u8]) -> Result<(), LtxFault>
    ensures ok { OnOk result (HasSoundFields bytes.now 15) }
    ensures fault { IfErr result (IsEarliest bytes.now) }
    ensures found { IfErr result IsFound }
    ensures start { IfErr result IsOfStart }
{
    check_magic(bytes)?;
    check_flags(bytes)?;
    check_page_size(bytes)
}

/// The fields behind the page size.
fn check_rest(bytes: &[u8]) -> Result<(), LtxFault>
    requires { HasSoundFields bytes.now 15 }
    ensures ok { OnOk result (HasSoundFields bytes.now 103) }
    ensures fault { IfErr result (IsEarliest bytes.now) }
    ensures found { IfErr result IsFound }
{
    check_commit(bytes)?;
    check_min(bytes)?;
    check_max(bytes)?;
    check_pre(bytes)
}

/// The first rule that the header's fields break, of those that are there. A page size past the
/// limit is refused too.
#[tactic(auto, using(crate::proofs::HeaderLemmas::start_sound, crate::proofs::HeaderLemmas::start_refused, crate::proofs::HeaderLemmas::rest_refused))]
pub fn check_within(bytes: &[u8], limit: u32) -> Result<(), LtxFault>
    ensures ok { OnOk result (HasSoundFields bytes.now 103) }
    ensures within { OnOk result (IsWithin limit bytes.now) }
    ensures fault { IfErr result (IsRefusedWithin limit bytes.now) }
{
    if let Err(fault) = check_start(bytes) {
        return Err(fault);
    }
    if bytes.len() >= 12 && be32_at(bytes, PAGE_SIZE) > limit {
        return Err(LtxFault::PageSize);
    }
    if let Err(fault) = check_rest(bytes) {
        return Err(fault);
    }
    Ok(())
}
