//! Calls of a cluster, and what follows them.
ghost use Rattle.std.specs.Prelude.{◌≡◌};
ghost use Rattle.http_exchange.specs.Exchange.{LinksTell};
ghost use Rattle.lease_link.specs.Asking.{dial_stand};
ghost use Rattle.etcd_wire.specs.declared.call.Call.TheVariants as call;
ghost use Rattle.etcd_lease.specs.Rounds.{Answers, Keeps, KeepsBehind, Posts, Then, is_held, kept_by, place};
ghost use Rattle.etcd_lease.specs.Turns.{TurnsOf};

use crate::asking::{Asking, ask_each};
use crate::etcd_service::EtcdService;
use crate::held::Held;
use crate::kept::Kept;
use crate::means::Means;
use crate::noting::Noting;
use etcd_wire::{Call, KeyValue, Said, body_of};
use lease_link::Unlearned;
use lf_base::{Clock, Dialer, Handles, Text};
use link_session::Turns;

impl<C: Clock, N: Noting> EtcdService<C, N> {
    /// One call. None where no endpoint answers it.
    pub(crate) fn post<R: Handles, T: Dialer>(
        &mut self,
        means: &Means<'_, R>,
        dialer: &mut T,
        call: &Call,
        turns: &mut Turns,
    ) -> Result<Option<Said>, Unlearned>
        ensures posts { Posts (LinksTell T.L.given T.L.taken) self.old.settings call.now
            (place self.old.endpoints.items self.old.held (dial_stand (T.dials dialer.old) (T.faults dialer.old)))
            (place self.new.endpoints.items self.new.held (dial_stand (T.dials dialer.new) (T.faults dialer.new))) result }
        ensures same { (self.new.settings ≡ self.old.settings) × (self.new.clock ≡ self.old.clock) }
        ensures turns { TurnsOf turns.old turns.new result }
    {
        let Ok(body) = body_of(means.alloc, &self.settings.key, self.settings.ttl, call) else {
            return Err(Unlearned::NoMemory);
        };
        let asking = Asking {
            call,
            body: body.as_slice(),
        };
        match ask_each(means, dialer, self.endpoints.as_slice(), asking, turns) {
            Ok(Some(found)) => {
                note_each(
                    means.rt,
                    &mut self.notes,
                    self.endpoints.as_slice(),
                    found.before,
                );
                self.endpoints.as_mut_slice().rotate_left(found.before);
                Ok(Some(found.said))
            }
            Ok(None) => {
                let count = self.endpoints.len();
                note_each(means.rt, &mut self.notes, self.endpoints.as_slice(), count);
                Ok(None)
            }
            Err(why) => Err(why),
        }
    }

    /// Asks that the lease of a key last on, and then whether the key is still this one.
    pub(crate) fn keep<R: Handles, T: Dialer>(
        &mut self,
        means: &Means<'_, R>,
        dialer: &mut T,
        held: Held,
        turns: &mut Turns,
    ) -> Result<Kept, Unlearned>
        ensures keeps { Keeps (LinksTell T.L.given T.L.taken) self.old.settings held
            (place self.old.endpoints.items self.old.held (dial_stand (T.dials dialer.old) (T.faults dialer.old)))
            (place self.new.endpoints.items self.new.held (dial_stand (T.dials dialer.new) (T.faults dialer.new))) result }
        ensures same { (self.new.settings ≡ self.old.settings) × (self.new.clock ≡ self.old.clock) }
        ensures turns { TurnsOf turns.old turns.new result }
    {
        let call = Call::KeepAlive { lease: held.lease };
        match self.post(means, dialer, &call, turns) {
            Ok(said) => self.keep_behind(means, dialer, held, &said, turns),
            Err(why) => Err(why),
        }
    }

    fn keep_behind<R: Handles, T: Dialer>(
        &mut self,
        means: &Means<'_, R>,
        dialer: &mut T,
        held: Held,
        said: &Option<Said>,
        turns: &mut Turns,
    ) -> Result<Kept, Unlearned>
        ensures keeps { KeepsBehind (LinksTell T.L.given T.L.taken) self.old.settings held said.now
            (place self.old.endpoints.items self.old.held (dial_stand (T.dials dialer.old) (T.faults dialer.old)))
            (place self.new.endpoints.items self.new.held (dial_stand (T.dials dialer.new) (T.faults dialer.new))) result }
        ensures same { (self.new.settings ≡ self.old.settings) × (self.new.clock ≡ self.old.clock) }
        ensures turns { TurnsOf turns.old turns.new result }
    {
        match said {
            Some(Said::Lasts { ttl: 0 }) => Ok(Kept::Gone),
            Some(Said::Lasts { ttl }) => self.look(means, dialer, held, *ttl, turns),
            _ => Ok(Kept::Unknown),
        }
    }

    /// Asks whether the key is still this one, whose lease lasts for so many seconds.
    fn look<R: Handles, T: Dialer>(
        &mut self,
        means: &Means<'_, R>,
        dialer: &mut T,
        held: Held,
        ttl: u64,
        turns: &mut Turns,
    ) -> Result<Kept, Unlearned>
        ensures looks { Then (Posts (LinksTell T.L.given T.L.taken) self.old.settings call.Range) (λ told. Answers (kept_by held ttl told))
            (place self.old.endpoints.items self.old.held (dial_stand (T.dials dialer.old) (T.faults dialer.old)))
            (place self.new.endpoints.items self.new.held (dial_stand (T.dials dialer.new) (T.faults dialer.new))) result }
        ensures same { (self.new.settings ≡ self.old.settings) × (self.new.clock ≡ self.old.clock) }
        ensures turns { TurnsOf turns.old turns.new result }
    {
        match self.post(means, dialer, &Call::Range, turns) {
            Ok(said) => Ok(kept_by(held, ttl, &said)),
            Err(why) => Err(why),
        }
    }
}

/// Tells that so many of the first endpoints gave no answer.
fn note_each<R: Handles, N: Noting>(rt: &R, notes: &mut N, endpoints: &[Text], count: usize) {
    if count == 0 {
        return;
    }
    let [first, rest @ ..] = endpoints else {
        return;
    };
    notes.passed_over(rt, first);
    note_each(rt, notes, rest, count - 1);
}

/// What a reply to `Range` tells of a key whose lease lasts for so many seconds.
fn kept_by(held: Held, ttl: u64, said: &Option<Said>) -> Kept
    ensures { result ≡ kept_by held ttl said.now }
{
    match said {
        Some(Said::Key(key)) => {
            if is_held(held, key) {
                Kept::Lasts(ttl)
            } else {
                Kept::Gone
            }
        }
        _ => Kept::Unknown,
    }
}

/// Whether the key is this one.
pub(crate) fn is_held(held: Held, key: &Option<KeyValue>) -> bool
    ensures { result ≡ is_held held key.now }
{
    match key {
        Some(key) => key.created == held.term && key.lease == held.lease,
        None => false,
    }
}
