//! A key that was put, and becomes a term at its time.
ghost use Rattle.std.specs.Prelude.{◌≡◌, ℕ, List, Ok, IfOk};
ghost use Rattle.http_exchange.specs.Exchange.{LinksTell};
ghost use Rattle.lease_core.specs.declared.lease_ask.LeaseAsk.TheVariants as ask;
ghost use Rattle.lease_link.specs.Asking.{DialStand, Fits, dial_stand};
ghost use Rattle.etcd_lease.specs.Acquiring.{WaitsBehind};
ghost use Rattle.etcd_lease.specs.Rounds.{Keeps, Then, place};
ghost use Rattle.etcd_lease.specs.Turns.{TurnsOf};

use crate::etcd_service::EtcdService;
use crate::held::Held;
use crate::kept::Kept;
use crate::means::Means;
use crate::noting::Noting;
use crate::renewing::belief_of;
use lease_link::{Learned, Unlearned};
use lf_base::{Clock, Dialer, Handles};
use link_session::Turns;

impl<C: Clock, N: Noting> EtcdService<C, N> {
    /// Keeps the key, and learns of its term where the time has come.
    pub(crate) fn wait<R: Handles, T: Dialer>(
        &mut self,
        means: &Means<'_, R>,
        dialer: &mut T,
        held: Held,
        turns: &mut Turns,
    ) -> Result<Learned, Unlearned>
        ensures fits { (node : ℕ) (url host : List ℕ) → IfOk result (Fits (ask.Acquire node url host)) }
        ensures waits { Then (Keeps (LinksTell T.L.given T.L.taken) self.old.settings held) (WaitsBehind (C.may_give self.old.clock) held)
            (place self.old.endpoints.items self.old.held (dial_stand (T.dials dialer.old) (T.faults dialer.old)))
            (place self.new.endpoints.items self.new.held (dial_stand (T.dials dialer.new) (T.faults dialer.new))) result }
        ensures same { (self.new.settings ≡ self.old.settings) × (C.may_give self.new.clock ≡ C.may_give self.old.clock) }
        ensures turns { TurnsOf turns.old turns.new result }
    {
        match self.keep(means, dialer, held, turns) {
            Ok(kept) => Ok(self.waited(held, kept)),
            Err(why) => Err(why),
        }
    }

    fn waited(&mut self, held: Held, kept: Kept) -> Learned
        ensures fits { (node : ℕ) (url host : List ℕ) → Fits (ask.Acquire node url host) result }
        ensures waits { (dialed : DialStand) → WaitsBehind (C.may_give self.old.clock) held kept (place self.old.endpoints.items self.old.held dialed)
            (place self.new.endpoints.items self.new.held dialed) (Ok result) }
        ensures same { (self.new.settings ≡ self.old.settings) × (C.may_give self.new.clock ≡ C.may_give self.old.clock) }
    {
        match kept {
            Kept::Unknown => Learned::Nothing,
            Kept::Gone => {
                self.held = None;
                Learned::Nothing
            }
            Kept::Lasts(ttl) => {
                if self.clock.now_ms() < held.from {
                    Learned::Nothing
                } else {
                    Learned::Granted {
                        term: held.term,
                        ttl: belief_of(ttl),
                    }
                }
            }
        }
    }
}
