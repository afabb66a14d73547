ghost use Rattle.std.specs.Prelude.{◌≡◌, IsSome, is_some};
ghost use Rattle.lease_core.specs.Belief.{no_belief, lasting, asked_at, granted_for, may_commit};

use std::marker::Model;

/// What a node believes of its own lease: until when it may commit. It counts from the moment of its
/// asking, so that it ends no later than the grant, whenever that was given.
#[derive(Clone, Copy, Debug, PartialEq, Eq)]
pub struct Belief {
    asked: Option<u64>,
    end: Option<u64>,
}

impl Model for Belief {
    ghost use Rattle.lease_core.specs.Belief.{LeaseBelief};

    ghost Value = { LeaseBelief };

    ghost view = { λ b. record { asked = b.asked; end = b.end } };

    ghost inverse = { λ v. record { asked = v.asked; end = v.end } };
}

impl Belief {
    /// The node may not commit.
    pub fn none() -> Belief
        ensures { result ≡ no_belief }
    {
        Belief {
            asked: None,
            end: Some(0),
        }
    }

    /// The node may commit until the lease is lost.
    pub fn always() -> Belief
        ensures { result ≡ lasting }
    {
        Belief {
            asked: None,
            end: None,
        }
    }

    /// The node is about to ask for a grant, at this moment of its clock.
    pub fn asked(&mut self, now: u64)
        ensures { self.new ≡ asked_at now self.old }
    {
        self.asked = Some(now);
    }

    /// Whether it has asked since the belief was made or lost.
    pub fn is_asked(&self) -> bool
        ensures { result ≡ is_some self.now.asked }
    {
        self.asked.is_some()
    }

    /// What it asked for last was granted, for so many milliseconds from the moment of asking on.
    /// The end is at most 2^64 - 1.
    pub fn granted(&mut self, _term: u64, ttl: u64)
        requires { IsSome self.old.asked }
        ensures { self.new ≡ granted_for ttl self.old }
    {
        self.end = self.asked.map(|asked| asked.saturating_add(ttl));
    }

    /// The lease is lost, and so is what was asked.
    pub fn lost(&mut self)
        ensures { self.new ≡ no_belief }
    {
        *self = Belief::none();
    }

    /// Whether the node may commit at this moment of its clock.
    pub fn may_commit(&self, now: u64) -> bool
        ensures { result ≡ may_commit self.now now }
    {
        self.end.is_none_or(|end| now < end)
    }
}
