ghost use Rattle.std.specs.Prelude.{◌≡◌, ◌==◌, ℕ, Bool, IsTrue};

/// What tells the time, as milliseconds.
pub trait Clock {
    /// The number that it gave last.
    ghost given: { Self → ℕ };

    /// Whether it may give a number.
    ghost may_give: { Self → ℕ → Bool };

    fn now_ms(&mut self) -> u64
        ensures given { given self.new ≡ result }
        ensures meets { IsTrue (may_give self.old result) }
        ensures same { may_give self.new ≡ may_give self.old };
}

/// It is always the same time.
#[derive(Clone, Copy, Debug, PartialEq, Eq)]
pub struct FixedClock {
    pub now: u64,
}

impl FixedClock {
    pub fn new(now: u64) -> FixedClock
        ensures { result.now ≡ now }
    {
        FixedClock { now }
    }
}

impl Clock for FixedClock {
    ghost given = { λ c. c.now };

    ghost may_give = { λ c n. n == c.now };

    fn now_ms(&mut self) -> u64
        ensures given { self.new.now ≡ result }
        ensures now { result ≡ self.old.now }
    {
        self.now
    }
}
