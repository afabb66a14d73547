//! A term renewed, and one given back.
ghost use Rattle.std.specs.Prelude.{◌≡◌, ℕ, None, Ok, IfOk};
ghost use Rattle.http_exchange.specs.Exchange.{LinksTell};
ghost use Rattle.lease_core.specs.declared.lease_ask.LeaseAsk.TheVariants as ask;
ghost use Rattle.lease_link.specs.Asking.{DialStand, Fits, dial_stand};
ghost use Rattle.lease_link.specs.declared.learned.Learned.TheVariants as told;
ghost use Rattle.etcd_wire.specs.declared.call.Call.TheVariants as call;
ghost use Rattle.etcd_lease.specs.Rounds.{AnswersWith, Keeps, Posts, Releases, Renews, RenewsBehind, Then, belief_of, place};
ghost use Rattle.etcd_lease.specs.Turns.{TurnsOf};

use crate::etcd_service::EtcdService;
use crate::held::Held;
use crate::kept::Kept;
use crate::means::Means;
use crate::noting::Noting;
use etcd_wire::Call;
use lease_link::{Learned, Unlearned};
use lf_base::{Clock, Dialer, Handles};
use link_session::Turns;

/// The longest time of a lease that is reckoned with, in seconds.
const TTL_MAX: u64 = 1_000_000_000;

impl<C: Clock, N: Noting> EtcdService<C, N> {
    pub(crate) fn renew<R: Handles, T: Dialer>(
        &mut self,
        means: &Means<'_, R>,
        dialer: &mut T,
        term: u64,
        turns: &mut Turns,
    ) -> Result<Learned, Unlearned>
        ensures fits { (node : ℕ) → IfOk result (Fits (ask.Renew node term)) }
        ensures renews { Renews (LinksTell T.L.given T.L.taken) self.old.settings self.old.held term
            (place self.old.endpoints.items self.old.held (dial_stand (T.dials dialer.old) (T.faults dialer.old)))
            (place self.new.endpoints.items self.new.held (dial_stand (T.dials dialer.new) (T.faults dialer.new))) result }
        ensures same { (self.new.settings ≡ self.old.settings) × (self.new.clock ≡ self.old.clock) }
        ensures turns { TurnsOf turns.old turns.new result }
    {
        match self.held {
            Some(held) => {
                if held.term == term {
                    self.renew_held(means, dialer, held, turns)
                } else {
                    Ok(Learned::Lost)
                }
            }
            None => Ok(Learned::Lost),
        }
    }

    fn renew_held<R: Handles, T: Dialer>(
        &mut self,
        means: &Means<'_, R>,
        dialer: &mut T,
        held: Held,
        turns: &mut Turns,
    ) -> Result<Learned, Unlearned>
        ensures fits { (node : ℕ) → IfOk result (Fits (ask.Renew node held.term)) }
        ensures renews { Then (Keeps (LinksTell T.L.given T.L.taken) self.old.settings held) (RenewsBehind held)
            (place self.old.endpoints.items self.old.held (dial_stand (T.dials dialer.old) (T.faults dialer.old)))
            (place self.new.endpoints.items self.new.held (dial_stand (T.dials dialer.new) (T.faults dialer.new))) result }
        ensures same { (self.new.settings ≡ self.old.settings) × (self.new.clock ≡ self.old.clock) }
        ensures turns { TurnsOf turns.old turns.new result }
    {
        match self.keep(means, dialer, held, turns) {
            Ok(kept) => Ok(self.renewed(held, kept)),
            Err(why) => Err(why),
        }
    }

    /// What is learned of a key that was to last on.
    fn renewed(&mut self, held: Held, kept: Kept) -> Learned
        ensures fits { (node : ℕ) → Fits (ask.Renew node held.term) result }
        ensures renews { (dialed : DialStand) → RenewsBehind held kept (place self.old.endpoints.items self.old.held dialed)
            (place self.new.endpoints.items self.new.held dialed) (Ok result) }
        ensures same { (self.new.settings ≡ self.old.settings) × (self.new.clock ≡ self.old.clock) }
    {
        match kept {
            Kept::Unknown => Learned::Nothing,
            Kept::Gone => {
                self.held = None;
                Learned::Lost
            }
            Kept::Lasts(ttl) => Learned::Granted {
                term: held.term,
                ttl: belief_of(ttl),
            },
        }
    }

    pub(crate) fn release<R: Handles, T: Dialer>(
        &mut self,
        means: &Means<'_, R>,
        dialer: &mut T,
        term: u64,
        turns: &mut Turns,
    ) -> Result<Learned, Unlearned>
        ensures nothing { IfOk result (λ learned. learned ≡ told.Nothing) }
        ensures releases { Releases (LinksTell T.L.given T.L.taken) self.old.settings self.old.held term
            (place self.old.endpoints.items self.old.held (dial_stand (T.dials dialer.old) (T.faults dialer.old)))
            (place self.new.endpoints.items self.new.held (dial_stand (T.dials dialer.new) (T.faults dialer.new))) result }
        ensures same { (self.new.settings ≡ self.old.settings) × (self.new.clock ≡ self.old.clock) }
        ensures turns { TurnsOf turns.old turns.new result }
    {
        match self.held {
            Some(held) => {
                if held.term == term {
                    self.release_held(means, dialer, held.lease, turns)
                } else {
                    Ok(Learned::Nothing)
                }
            }
            None => Ok(Learned::Nothing),
        }
    }

    fn release_held<R: Handles, T: Dialer>(
        &mut self,
        means: &Means<'_, R>,
        dialer: &mut T,
        lease: u64,
        turns: &mut Turns,
    ) -> Result<Learned, Unlearned>
        ensures nothing { IfOk result (λ learned. learned ≡ told.Nothing) }
        ensures releases { Then (Posts (LinksTell T.L.given T.L.taken) self.old.settings (call.Revoke lease)) (λ said. AnswersWith None told.Nothing)
            (place self.old.endpoints.items self.old.held (dial_stand (T.dials dialer.old) (T.faults dialer.old)))
            (place self.new.endpoints.items self.new.held (dial_stand (T.dials dialer.new) (T.faults dialer.new))) result }
        ensures same { (self.new.settings ≡ self.old.settings) × (self.new.clock ≡ self.old.clock) }
        ensures turns { TurnsOf turns.old turns.new result }
    {
        match self.post(means, dialer, &Call::Revoke { lease }, turns) {
            Ok(_) => {
                self.held = None;
                Ok(Learned::Nothing)
            }
            Err(why) => Err(why),
        }
    }
}

/// For how many milliseconds a lease of so many seconds is believed in: a second less, since etcd counts
/// whole seconds.
pub(crate) fn belief_of(ttl: u64) -> u64
    ensures { result ≡ belief_of ttl }
{
    ttl.min(TTL_MAX).saturating_sub(1) * 1000
}
