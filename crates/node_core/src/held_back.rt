ghost use Rattle.std.specs.Prelude.{◌≡◌, ◌-◌, ◌&&◌};
ghost use Rattle.node_core.specs.HoldingBack.{held_by, held_on, is_fresh, is_shut, keeps_out, since_by};

use crate::answer::Answer;

/// For how long what is held back counts, in milliseconds.
const LATELY: u64 = 1000;

/// For how long it goes on once one was applied.
const BEHIND: u64 = 10;

/// For how long readers come in after something was first held back.
const GRACE: u64 = 10;

/// For how long new readers are kept out.
const SHUT: u64 = 300;

/// For how long they are let in then.
const OPEN: u64 = 150;

/// Since when frames or drops are held back, and the last moment at which that counts. Moments are
/// in milliseconds since the Unix epoch.
#[derive(Clone, Copy, Debug, PartialEq, Eq)]
pub struct HeldBack {
    pub since: u64,
    pub until: u64,
}

impl HeldBack {
    /// Whether it counts at this moment.
    pub(crate) fn is_fresh(&self, now: u64) -> bool
        ensures { result ≡ is_fresh self.now now }
    {
        now <= self.until
    }
}

/// Whether new readers are kept out so long after something was first held back.
fn is_shut(passed: u64) -> bool
    ensures { result ≡ is_shut passed }
{
    passed >= GRACE && (passed - GRACE) % (SHUT + OPEN) < SHUT
}

/// Since when, where something is held back at this moment.
fn since_by(held: Option<HeldBack>, now: u64) -> u64
    ensures { result ≡ since_by held now }
{
    match held {
        Some(held) if held.is_fresh(now) => held.since,
        _ => now,
    }
}

/// What is known where something is applied at this moment.
fn held_on(held: Option<HeldBack>, now: u64) -> Option<HeldBack>
    ensures { result ≡ held_on held now }
{
    match held {
        Some(held) if held.is_fresh(now) => Some(HeldBack {
            since: held.since,
            until: now.saturating_add(BEHIND),
        }),
        _ => None,
    }
}

/// What is known after this answer to a frame or a drop.
pub(crate) fn held_by(answer: &Answer, now: u64, held: Option<HeldBack>) -> Option<HeldBack>
    ensures { result ≡ held_by answer.now now held }
{
    match answer {
        Answer::Held(_) => Some(HeldBack {
            since: since_by(held, now),
            until: now.saturating_add(LATELY),
        }),
        Answer::Applied(_) => held_on(held, now),
        _ => held,
    }
}

/// Whether new readers are kept out at this moment.
pub(crate) fn keeps_out(held: Option<HeldBack>, now: u64) -> bool
    ensures { result ≡ keeps_out held now }
{
    match held {
        Some(held) => held.is_fresh(now) && is_shut(now.saturating_sub(held.since)),
        None => false,
    }
}
