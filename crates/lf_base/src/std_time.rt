//! The system's clock and sleep.
ghost use Rattle.std.specs.Prelude.{◌≡◌, true};

use crate::clock::Clock;
use crate::pause::Pause;
use std::time::Duration;
use std::{thread, time};

/// The system's clock, as milliseconds since 1970. It reads the time of day once, when it is made, and
/// goes on by the time that has passed since: so it never goes back, and stands while the machine is
/// suspended. Where the passing time cannot be read, the last number stands.
#[derive(Clone, Copy, Drop)]
pub struct SystemClock<R: time::Clock> {
    rt: R,
    /// What the time of day was ahead of the system's time.
    ahead: u64,
    last: u64,
}

impl<R: time::Clock> SystemClock<R> {
    pub fn new(rt: R) -> SystemClock<R>
        ensures { result.last ≡ 0 }
    {
        let ahead = ahead_of(&rt);
        SystemClock { rt, ahead, last: 0 }
    }
}

/// How far the time of day is ahead of the system's time, in milliseconds, and 0 where one of them
/// cannot be read.
fn ahead_of<R: time::Clock>(rt: &R) -> u64 {
    match (rt.since_1970(), rt.monotonic()) {
        (Ok(day), Ok(passed)) => millis(day).saturating_sub(millis(passed)),
        _ => 0,
    }
}

fn millis(time: Duration) -> u64 {
    u64::try_from(time.as_millis()).unwrap_or(u64::MAX)
}

impl<R: time::Clock> Clock for SystemClock<R> {
    ghost given = { λ c. c.last };

    ghost may_give = { λ _ _. true };

    fn now_ms(&mut self) -> u64 {
        if let Ok(passed) = self.rt.monotonic() {
            self.last = self.ahead.saturating_add(millis(passed));
        }
        self.last
    }
}

/// A sleep of a stated time.
#[derive(Clone, Copy, Drop)]
pub struct SleepPause<R: time::Clock> {
    rt: R,
    millis: u64,
}

impl<R: time::Clock> SleepPause<R> {
    /// Each nap takes so many milliseconds.
    pub fn new(rt: R, millis: u64) -> SleepPause<R> {
        SleepPause { rt, millis }
    }
}

impl<R: time::Clock> Pause for SleepPause<R> {
    fn nap(&mut self) {
        self.naps(1);
    }

    fn naps(&mut self, count: u64) {
        let millis = self.millis.saturating_mul(count);
        thread::sleep(&self.rt, Duration::from_millis(millis));
    }
}
