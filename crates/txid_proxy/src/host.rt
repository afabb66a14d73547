//! The primary's host, as the served files name it.
ghost use Rattle.std.specs.Prelude.{◌≡◌, List, ℕ, Err, IfOk, OnErr, MatchBool, MatchOption};
ghost use Rattle.std.specs.List.{list_all};
ghost use Rattle.httparse.specs.Grammar.{is_value_byte};
ghost use Rattle.lf_base.specs.declared.session_end.SessionEnd.TheVariants as ends;
ghost use Rattle.link_session.specs.Stands.{asker, AsksOn};
ghost use Rattle.txid_proxy.specs.Asking.{AsksOwn, EndsAsks, FindsHost, FindsNode, FindsNoNode, GivesHandle, GivesNoHandle, IsHostLine, NamesHost, OpensHost, ReadsHost, primary_name};
ghost use Rattle.txid_proxy.specs.Spending.{SpendsAsks};

use crate::asking::ask_file;
use fuse_msgs::{Op, Reply};
use lf_base::{Bytes, Clock, NoMemory, SessionEnd};
use link_session::{Steps, Turns};
use node_core::{Answer, Ask};
use std::alloc::Global;

/// The node of the root.
const ROOT: u64 = 1;

/// The most bytes of the file that are read.
const LINE_MAX: u32 = 4096;

/// Looks for the primary's host.
pub(crate) fn find_host<S: Steps<Ask = Ask, Answer = Answer>, C: Clock>(
    alloc: Global,
    steps: &mut S,
    clock: &mut C,
    turns: &mut Turns,
) -> Result<Option<Bytes>, SessionEnd>
    ensures finds { IfOk result (FindsHost (asker S.Steps C.Clock steps.old clock.old) (S.entries steps.old) (S.entries steps.new)) }
    ensures asked { OnErr result (AsksOwn (S.number steps.old) (S.entries steps.old) (S.entries steps.new)) }
    ensures same { AsksOn S.Steps C.Clock steps.old steps.new clock.old clock.new }
    ensures spent { SpendsAsks turns.old (S.entries steps.old) turns.new (S.entries steps.new) result }
    ensures cause { EndsAsks turns.new result }
    ensures worn { result ≡ Err ends.Worn → S.is_worn steps.new }
{
    let name = match name_of_file(alloc) {
        Ok(name) => name,
        Err(_) => return Err(SessionEnd::NoMemory),
    };
    let looked = match ask_file(steps, clock, ROOT, Op::Lookup { name }, turns) {
        Ok(looked) => looked,
        Err(end) => return Err(end),
    };
    match node_in(&looked) {
        Some(node) => open_host(steps, clock, node, turns),
        None => Ok(None),
    }
}

/// Opens the file that names the host, and reads it.
fn open_host<S: Steps<Ask = Ask, Answer = Answer>, C: Clock>(
    steps: &mut S,
    clock: &mut C,
    node: u64,
    turns: &mut Turns,
) -> Result<Option<Bytes>, SessionEnd>
    ensures opens { IfOk result (OpensHost (asker S.Steps C.Clock steps.old clock.old) node (S.entries steps.old) (S.entries steps.new)) }
    ensures asked { OnErr result (AsksOwn (S.number steps.old) (S.entries steps.old) (S.entries steps.new)) }
    ensures same { AsksOn S.Steps C.Clock steps.old steps.new clock.old clock.new }
    ensures spent { SpendsAsks turns.old (S.entries steps.old) turns.new (S.entries steps.new) result }
    ensures cause { EndsAsks turns.new result }
    ensures worn { result ≡ Err ends.Worn → S.is_worn steps.new }
{
    let opened = match ask_file(steps, clock, node, Op::Open, turns) {
        Ok(opened) => opened,
        Err(end) => return Err(end),
    };
    match handle_in(&opened) {
        Some(fh) => read_host(steps, clock, node, fh, turns),
        None => Ok(None),
    }
}

/// The node that LOOKUP found.
fn node_in(answer: &Answer) -> Option<u64>
    ensures { MatchOption result (FindsNoNode answer.now) (FindsNode answer.now) }
{
    match answer {
        Answer::Done(Reply::Entry { node, size: _ }) => Some(*node),
        _ => None,
    }
}

/// The handle that OPEN gave.
fn handle_in(answer: &Answer) -> Option<u64>
    ensures { MatchOption result (GivesNoHandle answer.now) (GivesHandle answer.now) }
{
    match answer {
        Answer::Done(Reply::Opened { fh }) => Some(*fh),
        _ => None,
    }
}

/// Reads the host from the open file, and closes the file.
fn read_host<S: Steps<Ask = Ask, Answer = Answer>, C: Clock>(
    steps: &mut S,
    clock: &mut C,
    node: u64,
    fh: u64,
    turns: &mut Turns,
) -> Result<Option<Bytes>, SessionEnd>
    ensures reads { IfOk result (ReadsHost (asker S.Steps C.Clock steps.old clock.old) node fh (S.entries steps.old) (S.entries steps.new)) }
    ensures asked { OnErr result (AsksOwn (S.number steps.old) (S.entries steps.old) (S.entries steps.new)) }
    ensures same { AsksOn S.Steps C.Clock steps.old steps.new clock.old clock.new }
    ensures spent { SpendsAsks turns.old (S.entries steps.old) turns.new (S.entries steps.new) result }
    ensures cause { EndsAsks turns.new result }
    ensures worn { result ≡ Err ends.Worn → S.is_worn steps.new }
{
    let read = Op::Read {
        fh,
        at: 0,
        size: LINE_MAX,
        owner: None,
    };
    let read = match ask_file(steps, clock, node, read, turns) {
        Ok(read) => read,
        Err(end) => return Err(end),
    };
    match ask_file(steps, clock, node, Op::Release { fh, owner: 0 }, turns) {
        Ok(released) => Ok(host_named(read, released)),
        Err(end) => Err(end),
    }
}

/// The host that the answers to READ and RELEASE name.
fn host_named(read: Answer, released: Answer) -> Option<Bytes>
    ensures { NamesHost read released result }
{
    match (read, released) {
        (Answer::Done(Reply::Bytes { bytes }), Answer::Done(Reply::Empty)) => host_in(bytes),
        _ => None,
    }
}

/// The host that a line names.
fn host_in(bytes: Bytes) -> Option<Bytes>
    ensures { MatchOption result ((host : List ℕ) → IsHostLine bytes host → ⊥) (IsHostLine bytes) }
{
    let mut host = bytes.into_vec();
    if !is_feed(host.pop()) {
        return None;
    }
    if !is_value(host.as_slice()) {
        return None;
    }
    Some(Bytes::of(host))
}

fn is_feed(last: Option<u8>) -> bool
    ensures { MatchBool result (last ≡ Some 10) (last ≡ Some 10 → ⊥) }
{
    match last {
        Some(last) => last == b'\n',
        None => false,
    }
}

/// Whether a field may have these bytes as its value.
fn is_value(bytes: &[u8]) -> bool
    ensures { result ≡ list_all is_value_byte bytes.now }
{
    bytes
        .iter()
        .all(|b| *b == b'\t' || (*b >= b' ' && *b != 127))
}

/// The name of the file that names the primary's host.
fn name_of_file(alloc: Global) -> Result<Bytes, NoMemory>
    ensures { IfOk result (λ name. name ≡ primary_name) }
{
    let name = Vec::from_slice(alloc, b".primary")?;
    Ok(Bytes::of(name))
}
