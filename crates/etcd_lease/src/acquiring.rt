//! A term asked for where none is held.
ghost use Rattle.std.specs.Prelude.{◌≡◌, Some, IfOk, MatchOption};
ghost use Rattle.http_exchange.specs.Exchange.{LinksTell};
ghost use Rattle.lease_link.specs.Asking.{dial_stand};
ghost use Rattle.lease_link.specs.declared.learned.Learned.TheVariants as told;
ghost use Rattle.etcd_wire.specs.declared.call.Call.TheVariants as call;
ghost use Rattle.etcd_wire.specs.declared.said.KeyValue.{KeyValue};
ghost use Rattle.etcd_wire.specs.declared.said.Said.TheVariants as say;
ghost use Rattle.etcd_lease.specs.Acquiring.{Puts, PutsBehind, TakesBehind};
ghost use Rattle.etcd_lease.specs.Rounds.{Answers, Posts, Then, place};
ghost use Rattle.etcd_lease.specs.Turns.{TurnsOf};

use crate::etcd_service::EtcdService;
use crate::held::Held;
use crate::means::Means;
use crate::noting::Noting;
use crate::renewing::belief_of;
use etcd_wire::{Call, Said};
use lease_link::{Learned, Unlearned};
use lf_base::{Bytes, Clock, Dialer, Handles};
use link_session::Turns;

impl<C: Clock, N: Noting> EtcdService<C, N> {
    /// Puts the key with this value, where there is none.
    pub(crate) fn put<R: Handles, T: Dialer>(
        &mut self,
        means: &Means<'_, R>,
        dialer: &mut T,
        value: Bytes,
        turns: &mut Turns,
    ) -> Result<Learned, Unlearned>
        ensures nothing { IfOk result (λ learned. learned ≡ told.Nothing) }
        ensures puts { Puts (C.may_give self.old.clock) (LinksTell T.L.given T.L.taken) self.old.settings value
            (place self.old.endpoints.items self.old.held (dial_stand (T.dials dialer.old) (T.faults dialer.old)))
            (place self.new.endpoints.items self.new.held (dial_stand (T.dials dialer.new) (T.faults dialer.new))) result }
        ensures same { (self.new.settings ≡ self.old.settings) × (C.may_give self.new.clock ≡ C.may_give self.old.clock) }
        ensures turns { TurnsOf turns.old turns.new result }
    {
        match self.post(means, dialer, &Call::Grant, turns) {
            Ok(said) => self.put_behind(means, dialer, value, said, turns),
            Err(why) => Err(why),
        }
    }

    fn put_behind<R: Handles, T: Dialer>(
        &mut self,
        means: &Means<'_, R>,
        dialer: &mut T,
        value: Bytes,
        said: Option<Said>,
        turns: &mut Turns,
    ) -> Result<Learned, Unlearned>
        ensures nothing { IfOk result (λ learned. learned ≡ told.Nothing) }
        ensures puts { PutsBehind (C.may_give self.old.clock) (LinksTell T.L.given T.L.taken) self.old.settings value said
            (place self.old.endpoints.items self.old.held (dial_stand (T.dials dialer.old) (T.faults dialer.old)))
            (place self.new.endpoints.items self.new.held (dial_stand (T.dials dialer.new) (T.faults dialer.new))) result }
        ensures same { (self.new.settings ≡ self.old.settings) × (C.may_give self.new.clock ≡ C.may_give self.old.clock) }
        ensures turns { TurnsOf turns.old turns.new result }
    {
        let Some(said) = said else {
            return Ok(Learned::Nothing);
        };
        match said {
            Said::Lease { lease, ttl } => {
                let put = Call::Put { lease, value };
                match self.post(means, dialer, &put, turns) {
                    Ok(_) => self.look_behind(means, dialer, Lease { lease, ttl }, turns),
                    Err(why) => Err(why),
                }
            }
            _ => Ok(Learned::Nothing),
        }
    }

    /// Looks whether the key has this lease.
    fn look_behind<R: Handles, T: Dialer>(
        &mut self,
        means: &Means<'_, R>,
        dialer: &mut T,
        lease: Lease,
        turns: &mut Turns,
    ) -> Result<Learned, Unlearned>
        ensures nothing { IfOk result (λ learned. learned ≡ told.Nothing) }
        ensures takes { Then (Posts (LinksTell T.L.given T.L.taken) self.old.settings call.Range)
            (TakesBehind (C.may_give self.old.clock) (LinksTell T.L.given T.L.taken) self.old.settings lease.lease lease.ttl)
            (place self.old.endpoints.items self.old.held (dial_stand (T.dials dialer.old) (T.faults dialer.old)))
            (place self.new.endpoints.items self.new.held (dial_stand (T.dials dialer.new) (T.faults dialer.new))) result }
        ensures same { (self.new.settings ≡ self.old.settings) × (C.may_give self.new.clock ≡ C.may_give self.old.clock) }
        ensures turns { TurnsOf turns.old turns.new result }
    {
        match self.post(means, dialer, &Call::Range, turns) {
            Ok(said) => self.take(means, dialer, lease, said, turns),
            Err(why) => Err(why),
        }
    }

    /// Holds the key where it has this lease. Else the lease is of no use.
    fn take<R: Handles, T: Dialer>(
        &mut self,
        means: &Means<'_, R>,
        dialer: &mut T,
        lease: Lease,
        said: Option<Said>,
        turns: &mut Turns,
    ) -> Result<Learned, Unlearned>
        ensures nothing { IfOk result (λ learned. learned ≡ told.Nothing) }
        ensures takes { TakesBehind (C.may_give self.old.clock) (LinksTell T.L.given T.L.taken) self.old.settings lease.lease lease.ttl said
            (place self.old.endpoints.items self.old.held (dial_stand (T.dials dialer.old) (T.faults dialer.old)))
            (place self.new.endpoints.items self.new.held (dial_stand (T.dials dialer.new) (T.faults dialer.new))) result }
        ensures same { (self.new.settings ≡ self.old.settings) × (C.may_give self.new.clock ≡ C.may_give self.old.clock) }
        ensures turns { TurnsOf turns.old turns.new result }
    {
        match put_at(lease, &said) {
            Some(term) => {
                let now = self.clock.now_ms();
                self.held = Some(Held {
                    term,
                    lease: lease.lease,
                    from: now.saturating_add(belief_of(lease.ttl)),
                });
                Ok(Learned::Nothing)
            }
            None => self.revoke(means, dialer, lease.lease, turns),
        }
    }

    /// Ends a lease. How that ends is of no account.
    fn revoke<R: Handles, T: Dialer>(
        &mut self,
        means: &Means<'_, R>,
        dialer: &mut T,
        lease: u64,
        turns: &mut Turns,
    ) -> Result<Learned, Unlearned>
        ensures nothing { IfOk result (λ learned. learned ≡ told.Nothing) }
        ensures revokes { Then (Posts (LinksTell T.L.given T.L.taken) self.old.settings (call.Revoke lease)) (λ said. Answers told.Nothing)
            (place self.old.endpoints.items self.old.held (dial_stand (T.dials dialer.old) (T.faults dialer.old)))
            (place self.new.endpoints.items self.new.held (dial_stand (T.dials dialer.new) (T.faults dialer.new))) result }
        ensures same { (self.new.settings ≡ self.old.settings) × (C.may_give self.new.clock ≡ C.may_give self.old.clock) }
        ensures turns { TurnsOf turns.old turns.new result }
    {
        match self.post(means, dialer, &Call::Revoke { lease }, turns) {
            Ok(_) => Ok(Learned::Nothing),
            Err(why) => Err(why),
        }
    }
}

/// A lease that was granted, for so many seconds.
#[derive(Clone, Copy)]
struct Lease {
    lease: u64,
    ttl: u64,
}

/// The revision at which the key was put with this lease.
fn put_at(lease: Lease, said: &Option<Said>) -> Option<u64>
    ensures { MatchOption result ((key : KeyValue) → said.now ≡ Some (say.Key (Some key)) → key.lease ≡ lease.lease → ⊥)
        (λ term. (key : KeyValue) × (said.now ≡ Some (say.Key (Some key))) × (key.lease ≡ lease.lease) × (key.created ≡ term)) }
{
    match said {
        Some(Said::Key(Some(key))) if key.lease == lease.lease => Some(key.created),
        _ => None,
    }
}
