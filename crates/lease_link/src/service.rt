//! One that grants leases, as a node asks it.
ghost use Rattle.std.specs.Prelude.{Result, IfOk};
ghost use Rattle.http_exchange.specs.Exchange.{LinksTell};
ghost use Rattle.lease_core.specs.declared.lease_ask.LeaseAsk.{LeaseAsk};
ghost use Rattle.lease_link.specs.declared.learned.Learned.{Learned};
ghost use Rattle.lease_link.specs.declared.unlearned.Unlearned.{Unlearned};
ghost use Rattle.lease_link.specs.Asking.{DialStand, Fits, TurnsFor, dial_stand};

use crate::learned::Learned;
use crate::unlearned::Unlearned;
use lease_core::LeaseAsk;
use lf_base::{Dialer, Handles};
use link_session::Turns;
use std::alloc::Global;

/// A service that grants leases: who is asked for one, for a later end of one, to end one, and who has one.
pub trait Service {
    /// It was asked this by a dialer that stood so before and stands so now, whose links tell their bytes
    /// or not; and so it was heard, and so it is since.
    ghost serves: { Self → LeaseAsk → Type 0 → DialStand → DialStand → Result Learned Unlearned → Self → Type 0 };

    /// Asks once, by as many dials as it takes, and answers what is learned of it. Each call of a link that
    /// moves bytes is a turn.
    fn ask<R: Handles, T: Dialer>(
        &mut self,
        rt: &R,
        alloc: Global,
        dialer: &mut T,
        asked: &LeaseAsk,
        turns: &mut Turns,
    ) -> Result<Learned, Unlearned>
        ensures served { serves self.old asked.now (LinksTell T.L.given T.L.taken) (dial_stand (T.dials dialer.old) (T.faults dialer.old))
            (dial_stand (T.dials dialer.new) (T.faults dialer.new)) result self.new }
        ensures fits { IfOk result (Fits asked.now) }
        ensures turns { TurnsFor turns.old turns.new result };
}
