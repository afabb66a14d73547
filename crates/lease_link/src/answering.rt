//! What the lease service answers: one call of its table.

ghost use Rattle.std.specs.Prelude.{◌≡◌, IfOk, OnErr};
ghost use Rattle.lease_core.specs.declared.lease_ask.LeaseAsk.TheVariants as ask;
ghost use Rattle.lease_core.specs.declared.lease_fault.LeaseFault.TheVariants as fault;
ghost use Rattle.lease_core.specs.Leases.{at_moment};
ghost use Rattle.lease_link.specs.Table.{AnswersAsk, IsToldFault, status_of, told_grant};

use lease_core::{Grant, LeaseAsk, LeaseFault, LeaseKind, LeaseReply, LeaseTable};
use lf_base::{NoMemory, Text};

/// What the table answers to a request at this moment. After want of memory only the moment has moved.
pub fn answer(table: &mut LeaseTable, now: u64, asked: &LeaseAsk) -> Result<LeaseReply, NoMemory>
    ensures ok { IfOk result (AnswersAsk (at_moment now table.old) table.new asked.now) }
    ensures err { OnErr result (table.new ≡ at_moment now table.old) }
{
    match asked {
        LeaseAsk::Acquire { node, url, host } => acquire(table, now, *node, url, host),
        LeaseAsk::Renew { node, term } => renew(table, now, *node, *term),
        LeaseAsk::Release { node, term } => release(table, now, *node, *term),
        LeaseAsk::Info => info(table, now),
    }
}

/// The status of an answer.
pub fn status_of(told: &LeaseReply) -> u16
    ensures { result ≡ status_of told.now }
{
    match told {
        LeaseReply::Refused { .. } => 409,
        _ => 200,
    }
}

fn acquire(
    table: &mut LeaseTable,
    now: u64,
    node: u64,
    url: &Text,
    host: &Text,
) -> Result<LeaseReply, NoMemory>
    ensures ok { IfOk result (AnswersAsk (at_moment now table.old) table.new (ask.Acquire node url.now host.now)) }
    ensures err { OnErr result (table.new ≡ at_moment now table.old) }
{
    match table.acquire(now, node, url, host) {
        Ok(grant) => Ok(told_grant(table.moment(), grant)),
        Err(fault) => refused(fault),
    }
}

fn renew(table: &mut LeaseTable, now: u64, node: u64, term: u64) -> Result<LeaseReply, NoMemory>
    ensures ok { IfOk result (AnswersAsk (at_moment now table.old) table.new (ask.Renew node term)) }
    ensures err { OnErr result (table.new ≡ at_moment now table.old) }
{
    match table.renew(now, node, term) {
        Ok(until) => Ok(LeaseReply::Renewed {
            ttl: until.saturating_sub(table.moment()),
        }),
        Err(fault) => refused(fault),
    }
}

fn release(table: &mut LeaseTable, now: u64, node: u64, term: u64) -> Result<LeaseReply, NoMemory>
    ensures ok { IfOk result (AnswersAsk (at_moment now table.old) table.new (ask.Release node term)) }
    ensures err { OnErr result (table.new ≡ at_moment now table.old) }
{
    match table.release(now, node, term) {
        Ok(()) => Ok(LeaseReply::Empty),
        Err(fault) => refused(fault),
    }
}

fn info(table: &mut LeaseTable, now: u64) -> Result<LeaseReply, NoMemory>
    ensures ok { IfOk result (AnswersAsk (at_moment now table.old) table.new ask.Info) }
    ensures err { OnErr result (table.new ≡ at_moment now table.old) }
{
    let Some(live) = table.info(now) else {
        return Ok(LeaseReply::Empty);
    };
    let grant = copy_of(live)?;
    Ok(told_grant(table.moment(), grant))
}

fn copy_of(grant: &Grant) -> Result<Grant, NoMemory>
    ensures { IfOk result (λ g. g ≡ grant.now) }
{
    Ok(Grant {
        node: grant.node,
        url: grant.url.copy()?,
        host: grant.host.copy()?,
        term: grant.term,
        until: grant.until,
    })
}

/// The grant as it is told at this moment.
fn told_grant(moment: u64, grant: Grant) -> LeaseReply
    ensures { result ≡ told_grant moment grant }
{
    let Grant {
        url,
        host,
        term,
        until,
        ..
    } = grant;
    LeaseReply::Grant {
        host,
        term,
        ttl: until.saturating_sub(moment),
        url,
    }
}

/// The refusal as it is told. Want of memory is none.
fn refused(why: LeaseFault) -> Result<LeaseReply, NoMemory>
    ensures ok { IfOk result (IsToldFault why) }
    ensures err { OnErr result (why ≡ fault.NoMemory) }
{
    let (kind, until) = match why {
        LeaseFault::Held { until, .. } => (LeaseKind::Held, until),
        LeaseFault::Unknown => (LeaseKind::Unknown, 0),
        LeaseFault::Late { until } => (LeaseKind::Late, until),
        LeaseFault::Limit => (LeaseKind::Limit, 0),
        LeaseFault::NoMemory => return Err(NoMemory),
    };
    Ok(LeaseReply::Refused { kind, until })
}
