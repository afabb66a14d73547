//! What a node asks the lease service, and what it learns of the reply. Nothing is sent here.

ghost use Rattle.std.specs.Prelude.{◌≡◌, ℕ, List, IfOk};
ghost use Rattle.lease_core.specs.declared.lease_ask.LeaseAsk.TheVariants as ask;
ghost use Rattle.lease_link.specs.Learning.{Tells, granted, refused, round_ask};

use crate::learned::Learned;
use lease_core::{BodyFault, Grant, LeaseAsk, LeaseReply, read_reply};
use lf_base::NoMemory;
use std::alloc::Global;

/// The status of what is granted, and of what is refused.
const OK: u16 = 200;

const REFUSED: u16 = 409;

/// What a node with this term asks in a round, 0 for none.
pub fn round_ask(own: &Grant, candidate: bool) -> Result<LeaseAsk, NoMemory>
    ensures { IfOk result (λ asked. asked ≡ round_ask own.now candidate) }
{
    if own.term != 0 {
        return Ok(LeaseAsk::Renew {
            node: own.node,
            term: own.term,
        });
    }
    if !candidate {
        return Ok(LeaseAsk::Info);
    }
    let url = own.url.copy()?;
    let host = own.host.copy()?;
    Ok(LeaseAsk::Acquire {
        node: own.node,
        url,
        host,
    })
}

/// What a whole reply tells.
pub fn learn(alloc: Global, asked: &LeaseAsk, status: u16, body: &[u8]) -> Result<Learned, NoMemory>
    ensures { IfOk result (Tells asked.now status body.now) }
{
    match status {
        OK => learn_of(alloc, asked, body),
        REFUSED => Ok(refused(asked)),
        _ => Ok(Learned::Nothing),
    }
}

/// What the body of a reply with status 200 tells.
fn learn_of(alloc: Global, asked: &LeaseAsk, body: &[u8]) -> Result<Learned, NoMemory>
    ensures { IfOk result (Tells asked.now 200 body.now) }
{
    match read_reply(alloc, body) {
        Ok(said) => Ok(granted(asked, said)),
        Err(BodyFault::NoMemory) => Err(NoMemory),
        Err(BodyFault::Syntax) => Ok(Learned::Nothing),
        Err(BodyFault::Shape) => Ok(Learned::Nothing),
    }
}

fn granted(asked: &LeaseAsk, said: LeaseReply) -> Learned
    ensures { result ≡ granted asked.now said }
{
    match asked {
        LeaseAsk::Acquire { .. } => acquired(said),
        LeaseAsk::Renew { term, .. } => renewed(*term, &said),
        LeaseAsk::Release { .. } => Learned::Nothing,
        LeaseAsk::Info => informed(said),
    }
}

fn acquired(said: LeaseReply) -> Learned
    ensures { (node : ℕ) (url host : List ℕ) → result ≡ granted (ask.Acquire node url host) said }
{
    match said {
        LeaseReply::Grant { term, ttl, .. } => Learned::Granted { term, ttl },
        _ => Learned::Nothing,
    }
}

fn renewed(term: u64, said: &LeaseReply) -> Learned
    ensures { (node : ℕ) → result ≡ granted (ask.Renew node term) said.now }
{
    match said {
        LeaseReply::Renewed { ttl } => Learned::Granted { term, ttl: *ttl },
        _ => Learned::Nothing,
    }
}

fn informed(said: LeaseReply) -> Learned
    ensures { result ≡ granted ask.Info said }
{
    match said {
        LeaseReply::Grant { host, url, .. } => Learned::Primary { host, url },
        LeaseReply::Empty => Learned::Nobody,
        _ => Learned::Nothing,
    }
}

fn refused(asked: &LeaseAsk) -> Learned
    ensures { result ≡ refused asked.now }
{
    match asked {
        LeaseAsk::Renew { .. } => Learned::Lost,
        _ => Learned::Nothing,
    }
}
