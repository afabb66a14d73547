ghost use Rattle.std.specs.Prelude.{◌≡◌, ◌^◌, ◌≤◌, [], None, IfOk, OnOk, IfErr, OnErr, Some, length, IfSome};
ghost use Rattle.std.specs.Option.{option_copied};
ghost use Rattle.std.specs.Borrow.{sem};
ghost use denote.Follow.{follows_so};
ghost use Rattle.lease_core.specs.Leases.{IsLeases, at_moment, live_grant, grant_of, next_term, granted_to, with_grant, end_of_grant, ChangesEnd};
ghost use Rattle.lease_core.specs.Leases.{term_refusal, acquire_refusal, renew_refusal, release_refusal, IsRefusal};

use crate::{Grant, LeaseFault};
use lf_base::{NoMemory, Text};
use std::alloc::Global;
use std::marker::Model;

/// The lease service's table: the grant of each term so far. Its moment is the greatest that it was
/// given.
#[derive(Debug, Drop)]
pub struct LeaseTable {
    ttl: u64,
    moment: u64,
    grants: Vec<Grant>,
}

impl Model for LeaseTable {
    ghost use Rattle.lease_core.specs.Leases.{Leases, IsLeases};

    ghost Value = { Leases };

    ghost view = { λ t. record { ttl = t.ttl; moment = t.moment; grants = t.grants.items } };

    ghost invariant = { λ t. IsLeases (record { ttl = t.ttl; moment = t.moment; grants = t.grants.items }) };
}

impl LeaseTable {
    ghost use Rattle.std.specs.Prelude.{⊤};
    ghost use mathlib.Core.Option.{none};
    ghost use Rattle.lease_core.specs.contracts.lease_table.LeaseTable.{the_row};

    /// A table without grants, at moment 0, whose grants last `ttl` milliseconds.
    pub fn new(alloc: Global, ttl: u64) -> LeaseTable
        ensures { result ≡ record { ttl = ttl; moment = 0; grants = [] } }
    {
        LeaseTable {
            ttl,
            moment: 0,
            grants: Vec::new(alloc),
        }
    }

    /// Grants a new term, or renews the node's own that has not ended, with the url and the host that
    /// it names now.
    pub fn acquire(
        &mut self,
        now: u64,
        node: u64,
        url: &Text,
        host: &Text,
    ) -> Result<Grant, LeaseFault>
        ensures ok { IfOk result (λ grant. grant ≡ granted_to (at_moment now self.old) node url.now host.now) }
        ensures kept { IfOk result (λ grant. self.new ≡ with_grant grant (at_moment now self.old)) }
        ensures only { OnOk result (acquire_refusal (at_moment now self.old) node ≡ None) }

        ensures cause { IfErr result (IsRefusal (acquire_refusal (at_moment now self.old) node)) }
        ensures unchanged { OnErr result (self.new ≡ at_moment now self.old) }
    {
        self.pass(now);
        let term = self.next_term(node)?;
        let until = self.end_of_grant()?;
        let grant = copy_of(node, url, host, term, until)?;
        self.put(copy_of(node, url, host, term, until)?)?;
        Ok(grant)
    }

    /// Renews the node's term, if it has not ended, and gives its new end.
    pub fn renew(&mut self, now: u64, node: u64, term: u64) -> Result<u64, LeaseFault>
        ensures ok { IfOk result (λ until. until ≡ end_of_grant (at_moment now self.old)) }
        ensures kept { IfOk result (ChangesEnd (at_moment now self.old) self.new node term) }
        ensures only { OnOk result (renew_refusal (at_moment now self.old) node term ≡ None) }

        ensures cause { IfErr result (λ fault. renew_refusal (at_moment now self.old) node term ≡ Some fault) }
        ensures unchanged { OnErr result (self.new ≡ at_moment now self.old) }
    {
        self.pass(now);
        self.check(node, term)?;
        let until = self.end_of_grant()?;
        self.end_at(node, term, until);
        Ok(until)
    }

    /// Ends the node's term at the table's moment, if it has not ended.
    pub fn release(&mut self, now: u64, node: u64, term: u64) -> Result<(), LeaseFault>
        ensures ok { OnOk result (ChangesEnd (at_moment now self.old) self.new node term (at_moment now self.old).moment) }
        ensures only { OnOk result (release_refusal (at_moment now self.old) node term ≡ None) }

        ensures cause { IfErr result (λ fault. release_refusal (at_moment now self.old) node term ≡ Some fault) }
        ensures unchanged { OnErr result (self.new ≡ at_moment now self.old) }
    {
        self.pass(now);
        self.check(node, term)?;
        self.end_at(node, term, self.moment);
        Ok(())
    }

    /// The grant that has not ended, if there is one.
    pub fn info(&mut self, now: u64) -> Option<&Grant>
        ensures* after { sem 𝓛 (follows_so the_row the_row self.entry.ghost_name none (λ _ _. ⊤) (λ new. new ≡ at_moment now self.old)) }
        ensures grant { option_copied result ≡ live_grant (at_moment now self.old) }
    {
        self.pass(now);
        self.live()
    }

    /// The table's moment.
    pub fn moment(&self) -> u64
        ensures moment { result ≡ self.now.moment }
        ensures list { IsLeases self.now }
    {
        self.moment
    }

    /// The moment is now at least `now`.
    fn pass(&mut self, now: u64)
        ensures { self.new ≡ at_moment now self.old }
    {
        self.moment = self.moment.max(now);
    }

    fn live(&self) -> Option<&Grant>
        ensures grant { option_copied result ≡ live_grant self.now }
        ensures term { IfSome result (λ live. live.now.term ≡ length self.now.grants) }
    {
        let last = self.grants.last()?;
        if self.moment < last.until {
            Some(last)
        } else {
            None
        }
    }

    /// The term that the node gets, if no other's stands against it. Terms count up from 1, so the
    /// last is their number.
    fn next_term(&self, node: u64) -> Result<u64, LeaseFault>
        ensures ok { IfOk result (λ term. term ≡ next_term self.now) }
        ensures only { OnOk result (term_refusal self.now node ≡ None) }
        ensures cause { IfErr result (λ fault. term_refusal self.now node ≡ Some fault) }
    {
        let last = self.grants.len() as u64;
        let Some(live) = self.live() else {
            return last.checked_add(1).ok_or(LeaseFault::Limit);
        };
        if live.node == node {
            Ok(last)
        } else {
            Err(LeaseFault::Held {
                by: live.node,
                until: live.until,
            })
        }
    }

    fn end_of_grant(&self) -> Result<u64, LeaseFault>
        ensures ok { IfOk result (λ until. until ≡ end_of_grant self.now) }
        ensures cause { IfErr result (λ fault. (fault ≡ LeaseFault.Limit) × (2 ^ 64 ≤ end_of_grant self.now)) }
    {
        self.moment.checked_add(self.ttl).ok_or(LeaseFault::Limit)
    }

    /// Refuses a term that was never the node's, or has ended.
    fn check(&self, node: u64, term: u64) -> Result<(), LeaseFault>
        ensures ok { OnOk result (release_refusal self.now node term ≡ None) }
        ensures cause { IfErr result (λ fault. release_refusal self.now node term ≡ Some fault) }
    {
        let Some(grant) = self.find(node, term) else {
            return Err(LeaseFault::Unknown);
        };
        if self.moment < grant.until {
            Ok(())
        } else {
            Err(LeaseFault::Late { until: grant.until })
        }
    }

    fn find(&self, node: u64, term: u64) -> Option<&Grant>
        ensures { option_copied result ≡ grant_of self.now node term }
    {
        self.grants
            .iter()
            .find(|grant| grant.term == term && grant.node == node)
    }

    /// Puts the grant in the place of the one that has not ended, or behind all others.
    fn put(&mut self, grant: Grant) -> Result<(), NoMemory>
        requires { grant.term ≡ next_term self.old }
        ensures ok { OnOk result (self.new ≡ with_grant grant self.old) }
        ensures unchanged { OnErr result (self.new ≡ self.old) }
    {
        if self.live().is_none() {
            self.grants.push(grant)?;
        } else {
            let place = self.grants.len() - 1;
            self.grants[place] = grant;
        }
        Ok(())
    }

    /// Gives the node's term, which has not ended, another end.
    fn end_at(&mut self, node: u64, term: u64, until: u64)
        requires { release_refusal self.old node term ≡ None }
        ensures { ChangesEnd self.old self.new node term until }
    {
        let place = self.grants.len() - 1;
        let last = &mut self.grants[place];
        last.until = until;
    }
}

fn copy_of(node: u64, url: &Text, host: &Text, term: u64, until: u64) -> Result<Grant, NoMemory>
    ensures { IfOk result (λ g. g ≡ record { node = node; url = url.now; host = host.now; term = term; until = until }) }
{
    Ok(Grant {
        node,
        url: url.copy()?,
        host: host.copy()?,
        term,
        until,
    })
}
