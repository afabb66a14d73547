//! A lease by etcd, as a node asks for it.
ghost use Rattle.std.specs.Prelude.{◌≡◌, ℕ, List, IfOk};
ghost use Rattle.http_exchange.specs.Exchange.{LinksTell};
ghost use Rattle.lease_core.specs.declared.lease_ask.LeaseAsk.TheVariants as ask;
ghost use Rattle.lease_link.specs.Asking.{Fits, dial_stand};
ghost use Rattle.etcd_lease.specs.Acquiring.{Acquires, AsksEtcd, value_of};
ghost use Rattle.etcd_lease.specs.Rounds.{belief_of, place};
ghost use Rattle.etcd_lease.specs.Turns.{TurnsOf};

use crate::held::Held;
use crate::means::Means;
use crate::noting::Noting;
use crate::renewing::belief_of;
use crate::settings::EtcdSettings;
use lease_core::{LeaseAsk, LeaseReply, write_body};
use lease_link::{Learned, Service, Unlearned};
use lf_base::{Bytes, Clock, Dialer, Handles, NoMemory, Text};
use link_session::Turns;
use std::alloc::Global;

/// An etcd cluster that is asked for leases. `clock` tells when a key that was put stands for a lease.
#[derive(Drop)]
pub struct EtcdService<C, N> {
    pub settings: EtcdSettings,
    /// Each as `host:port`, in the order in which they are asked.
    pub endpoints: Vec<Text>,
    /// The key that the node has put, if it has.
    pub held: Option<Held>,
    pub clock: C,
    pub notes: N,
}

impl<C: Clock, N: Noting> Service for EtcdService<C, N> {
    ghost serves = { λ old asked tell before after heard now. AsksEtcd (C.may_give old.clock) tell old.settings asked
        (place old.endpoints.items old.held before) (place now.endpoints.items now.held after) heard
        × (now.settings ≡ old.settings) × (C.may_give now.clock ≡ C.may_give old.clock) };

    fn ask<R: Handles, T: Dialer>(
        &mut self,
        rt: &R,
        alloc: Global,
        dialer: &mut T,
        asked: &LeaseAsk,
        turns: &mut Turns,
    ) -> Result<Learned, Unlearned> {
        let means = Means { rt, alloc };
        match asked {
            LeaseAsk::Acquire { url, host, .. } => {
                self.acquire(&means, dialer, (url, host), turns)
            }
            LeaseAsk::Renew { term, .. } => self.renew(&means, dialer, *term, turns),
            LeaseAsk::Release { term, .. } => self.release(&means, dialer, *term, turns),
            LeaseAsk::Info => self.inform(&means, dialer, turns),
        }
    }
}

impl<C: Clock, N: Noting> EtcdService<C, N> {
    fn acquire<R: Handles, T: Dialer>(
        &mut self,
        means: &Means<'_, R>,
        dialer: &mut T,
        own: (&Text, &Text),
        turns: &mut Turns,
    ) -> Result<Learned, Unlearned>
        ensures fits { (node : ℕ) (url host : List ℕ) → IfOk result (Fits (ask.Acquire node url host)) }
        ensures acquires { (node : ℕ) → Acquires (C.may_give self.old.clock) (LinksTell T.L.given T.L.taken) self.old.settings (ask.Acquire node own.entry.0.now own.entry.1.now) self.old.held
            (place self.old.endpoints.items self.old.held (dial_stand (T.dials dialer.old) (T.faults dialer.old)))
            (place self.new.endpoints.items self.new.held (dial_stand (T.dials dialer.new) (T.faults dialer.new))) result }
        ensures same { (self.new.settings ≡ self.old.settings) × (C.may_give self.new.clock ≡ C.may_give self.old.clock) }
        ensures turns { TurnsOf turns.old turns.new result }
    {
        match self.held {
            Some(held) => self.wait(means, dialer, held, turns),
            None => match own_value(means.alloc, self.settings.ttl, own.0, own.1) {
                Ok(value) => self.put(means, dialer, value, turns),
                Err(_) => Err(Unlearned::NoMemory),
            },
        }
    }
}

/// The value of the key of a node with this URL and host.
fn own_value(alloc: Global, ttl: u64, url: &Text, host: &Text) -> Result<Bytes, NoMemory>
    ensures { IfOk result (λ value. (node : ℕ) → value ≡ value_of (ask.Acquire node url.now host.now) (belief_of ttl)) }
{
    let grant = LeaseReply::Grant {
        host: host.copy()?,
        term: 0,
        ttl: belief_of(ttl),
        url: url.copy()?,
    };
    let mut value = Vec::new(alloc);
    write_body(alloc, &grant, &mut value)?;
    Ok(Bytes::of(value))
}
