//! Who is primary.
ghost use Rattle.std.specs.Prelude.{◌≡◌, IfOk};
ghost use Rattle.http_exchange.specs.Exchange.{LinksTell};
ghost use Rattle.lease_core.specs.declared.lease_ask.LeaseAsk.TheVariants as ask;
ghost use Rattle.lease_link.specs.Asking.{Fits, dial_stand};
ghost use Rattle.etcd_lease.specs.Acquiring.{AsksWho, Informs, TellsWho, is_own};
ghost use Rattle.etcd_lease.specs.Rounds.{place};
ghost use Rattle.etcd_lease.specs.Turns.{TurnsOf};

use crate::etcd_service::EtcdService;
use crate::held::Held;
use crate::means::Means;
use crate::noting::Noting;
use crate::rounds::is_held;
use base64::DecodeAllocError;
use base64::engine::general_purpose::STANDARD;
use etcd_wire::{Call, KeyValue, Said};
use lease_core::LeaseAsk;
use lease_link::{Learned, Unlearned, learn};
use lf_base::{Clock, Dialer, Handles, NoMemory, Text};
use link_session::Turns;
use std::alloc::Global;

/// The status of a reply that grants.
const OK: u16 = 200;

impl<C: Clock, N: Noting> EtcdService<C, N> {
    /// Asks who is primary.
    pub(crate) fn inform<R: Handles, T: Dialer>(
        &mut self,
        means: &Means<'_, R>,
        dialer: &mut T,
        turns: &mut Turns,
    ) -> Result<Learned, Unlearned>
        ensures fits { IfOk result (Fits ask.Info) }
        ensures asks { AsksWho (LinksTell T.L.given T.L.taken) self.old.settings
            (place self.old.endpoints.items self.old.held (dial_stand (T.dials dialer.old) (T.faults dialer.old)))
            (place self.new.endpoints.items self.new.held (dial_stand (T.dials dialer.new) (T.faults dialer.new))) result }
        ensures same { (self.new.settings ≡ self.old.settings) × (self.new.clock ≡ self.old.clock) }
        ensures turns { TurnsOf turns.old turns.new result }
    {
        match self.post(means, dialer, &Call::Range, turns) {
            Ok(said) => match informed(means.alloc, self.held, &said) {
                Ok(learned) => Ok(learned),
                Err(_) => Err(Unlearned::NoMemory),
            },
            Err(why) => Err(why),
        }
    }
}

/// What a reply to `Range` tells of who is primary.
fn informed(alloc: Global, held: Option<Held>, said: &Option<Said>) -> Result<Learned, NoMemory>
    ensures informs { IfOk result (Informs held said.now) }
    ensures fits { IfOk result (Fits ask.Info) }
{
    match said {
        Some(Said::Key(key)) => match key {
            Some(value) => {
                if is_own(held, key) {
                    Ok(Learned::Nobody)
                } else {
                    who(alloc, &value.value)
                }
            }
            None => Ok(Learned::Nobody),
        },
        _ => Ok(Learned::Nothing),
    }
}

/// Whether the key is the one that is held.
fn is_own(held: Option<Held>, key: &Option<KeyValue>) -> bool
    ensures { result ≡ is_own held key.now }
{
    match held {
        Some(held) => is_held(held, key),
        None => false,
    }
}

/// Who is primary by the value of a key.
fn who(alloc: Global, value: &Text) -> Result<Learned, NoMemory>
    ensures tells { IfOk result (TellsWho value.now) }
    ensures fits { IfOk result (Fits ask.Info) }
{
    match STANDARD.decode(alloc, value.bytes()) {
        Ok(bytes) => learn(alloc, &LeaseAsk::Info, OK, bytes.as_slice()),
        Err(DecodeAllocError::OutOfMemory) => Err(NoMemory),
        Err(_) => Ok(Learned::Nothing),
    }
}
