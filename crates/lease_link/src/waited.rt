//! The wait of a lease service before it listens.

ghost use Rattle.std.specs.Prelude.{◌≡◌, ◌+◌, ◌≤◌, ◌↔◌, IsTrue};
ghost use Rattle.lease_link.specs.Waiting.{IsOver};

use lf_base::{Clock, Pause};
use std::marker::Model;

/// How long a nap takes, in milliseconds.
const NAP_MS: u64 = 50;

/// That a lease service has waited, so long that each grant of one before it has ended. There is none
/// without such a wait.
#[derive(Debug, Drop)]
pub struct Waited {
    ttl: u64,
    began: u64,
    ended: u64,
    naps: u64,
}

impl Model for Waited {
    ghost use Rattle.lease_link.specs.Waiting.{IsOver, Wait};

    ghost Value = { Wait };

    ghost view = { λ w. record { ttl = w.ttl; began = w.began; ended = w.ended; naps = w.naps } };

    ghost invariant = { λ w. IsOver (record { ttl = w.ttl; began = w.began; ended = w.ended; naps = w.naps }) };
}

impl Waited {
    /// Naps until the clock says that so many milliseconds have passed. Where it stands, the naps do:
    /// they are as many as last longer.
    pub fn after<C: Clock, P: Pause>(ttl: u64, clock: &mut C, pause: &mut P) -> Waited
        ensures ttl { result.ttl ≡ ttl }
        ensures began { IsTrue (C.may_give clock.old result.began) }
        ensures ended { C.given clock.new ≡ result.ended }
        ensures clock { C.may_give clock.new ≡ C.may_give clock.old }
    {
        let began = clock.now_ms();
        let mut ended = began;
        let most = ttl / NAP_MS + 1;
        for naps in 0..most {
            if has_passed(ttl, began, ended) {
                return Waited {
                    ttl,
                    began,
                    ended,
                    naps,
                };
            }
            pause.nap();
            ended = clock.now_ms();
        }
        Waited {
            ttl,
            began,
            ended,
            naps: most,
        }
    }

    /// For how long it waited.
    pub fn ttl(&self) -> u64
        ensures ttl { result ≡ self.now.ttl }
        ensures over { IsOver self.now }
    {
        self.ttl
    }
}

/// Whether so long has passed from one moment to another.
fn has_passed(ttl: u64, from: u64, to: u64) -> bool
    ensures { IsTrue result ↔ (from + ttl ≤ to) }
{
    from <= to && ttl <= to - from
}
