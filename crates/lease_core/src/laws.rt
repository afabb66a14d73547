//! Laws of the definitions, each proved as the contract of a function that does nothing.

ghost use Rattle.std.specs.Prelude.{◌≡◌, ℕ, ◌+◌, ◌-◌, ◌<◌, ◌≤◌, true, Some, Contains};
ghost use Rattle.lease_core.specs.declared.grant.Grant.{Grant};
ghost use Rattle.lease_core.specs.declared.lease_ask.LeaseAsk.{LeaseAsk};
ghost use Rattle.lease_core.specs.declared.lease_reply.LeaseReply.{LeaseReply};
ghost use Rattle.lease_core.specs.Bodies.{FitsAsk, ask_members, reply_members};
ghost use Rattle.lease_core.specs.Leases.{Leases, IsLeases, live_grant};
ghost use Rattle.lease_core.specs.LeaseRun.{HolderBelieves, OneBeliever};
ghost use Rattle.lease_core.specs.Belief.{LeaseBelief, asked_at, granted_for, may_commit};

/// Of all terms that a table ever granted at most one has not ended: the last. A term that was
/// released has ended.
pub fn one_live_lease()
    ensures { (leases : Leases) (a : Grant) → IsLeases leases → Contains leases.grants a → leases.moment < a.until
        → live_grant leases ≡ Some a }
{}

/// A belief ends no later than its grant. A node asked at a moment of its clock; later the service
/// granted it a term until `until`, at the moment `at` of its own clock, and told it how long that
/// is. Where the clock of the node was not ahead, it may commit only before `until`.
pub fn belief_ends_first()
    ensures { (belief : LeaseBelief) (asked at until now : ℕ) → asked ≤ at → at ≤ until
        → may_commit (granted_for (until - at) (asked_at asked belief)) now ≡ true → now < until }
{}

/// After every run of nodes and their lease service, a node that may commit, and whose moment is current,
/// holds the one grant that has not ended; so no two nodes do. Of the clocks it is wanted that each is
/// ahead of a common time by an amount that does not change, that nothing is granted before it was asked
/// for in that time, and that the node's moment is not before the service's; and a term is given back only
/// by a node that believes in none.
pub fn holder_believes()
    ensures holder { HolderBelieves }
    ensures one { OneBeliever }
{}

/// No two requests and no two replies have the same members. So what is written reads back: its text
/// is JSON of these members, and readers answer what has them.
pub fn one_reading()
    ensures asks { (a b : LeaseAsk) → FitsAsk a → FitsAsk b → ask_members a ≡ ask_members b → a ≡ b }
    ensures replies { (a b : LeaseReply) → reply_members a ≡ reply_members b → a ≡ b }
{}
