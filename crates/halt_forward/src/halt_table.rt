ghost use Rattle.std.specs.Prelude.{◌≡◌, None, Some, IfOk, OnOk, IfErr, OnErr};
ghost use Rattle.ltx_codec.specs.Positions.{before};
ghost use Rattle.halt_forward.specs.Permits.{at_moment, pass_out, next_pass, with_next, without_pass, grant_refusal, use_refusal, RefusesFile};

use crate::{HaltFault, HaltPass};
use lf_base::Pos;
use ltx_codec::Ltx;
use std::marker::Model;

/// The write permits of a primary, one out at a time. Its moment is the greatest that it was given. A
/// permit is out until it is given back or the moment reaches its end.
#[derive(Clone, Copy, Debug, PartialEq, Eq)]
pub struct HaltTable {
    ttl: u64,
    moment: u64,
    given: u64,
    last: Option<HaltPass>,
}

impl Model for HaltTable {
    ghost use Rattle.halt_forward.specs.Permits.{Permits};

    ghost Value = { Permits };

    ghost view = { λ t. record { ttl = t.ttl; moment = t.moment; given = t.given; last = t.last } };

    ghost inverse = { λ v. record { ttl = v.ttl; moment = v.moment; given = v.given; last = v.last } };
}

impl HaltTable {
    /// A table at moment 0 that gave out none, whose permits last `ttl` milliseconds.
    pub fn new(ttl: u64) -> HaltTable
        ensures { result ≡ record { ttl = ttl; moment = 0; given = 0; last = None } }
    {
        HaltTable {
            ttl,
            moment: 0,
            given: 0,
            last: None,
        }
    }

    /// Gives out the next permit. Who has one out is not told apart: not even its node gets another.
    pub fn grant(&mut self, now: u64, _node: u64) -> Result<HaltPass, HaltFault>
        ensures ok { IfOk result (λ pass. pass ≡ next_pass (at_moment now self.old)) }
        ensures kept { OnOk result (self.new ≡ with_next (at_moment now self.old)) }
        ensures only { OnOk result (grant_refusal (at_moment now self.old) ≡ None) }

        ensures cause { IfErr result (λ fault. grant_refusal (at_moment now self.old) ≡ Some fault) }
        ensures unchanged { OnErr result (self.new ≡ at_moment now self.old) }
    {
        if let Some(HaltPass { number, until }) = self.out(now) {
            return Err(HaltFault::HaltHeld { number, until });
        }
        let pass = HaltPass {
            number: self.given.checked_add(1).ok_or(HaltFault::Limit)?,
            until: self.moment.checked_add(self.ttl).ok_or(HaltFault::Limit)?,
        };
        self.given = pass.number;
        self.last = Some(pass);
        Ok(pass)
    }

    /// Takes back the permit of this number.
    pub fn give_back(&mut self, now: u64, number: u64) -> Result<(), HaltFault>
        ensures ok { OnOk result (self.new ≡ without_pass (at_moment now self.old)) }
        ensures only { OnOk result (use_refusal (at_moment now self.old) number ≡ None) }

        ensures cause { IfErr result (λ fault. use_refusal (at_moment now self.old) number ≡ Some fault) }
        ensures unchanged { OnErr result (self.new ≡ at_moment now self.old) }
    {
        self.check(now, number)?;
        self.last = None;
        Ok(())
    }

    /// Whether a file that comes under the permit of this number may be applied: the permit is out, and
    /// the file follows the position of the database.
    pub fn accept(&mut self, now: u64, number: u64, have: Pos, ltx: &Ltx) -> Result<(), HaltFault>
        ensures out { OnOk result (use_refusal (at_moment now self.old) number ≡ None) }
        ensures follows { OnOk result (before ltx.now ≡ have) }

        ensures cause { IfErr result (RefusesFile (at_moment now self.old) number have ltx.now) }
        ensures unchanged { self.new ≡ at_moment now self.old }
    {
        self.check(now, number)?;
        let want = Pos {
            txid: ltx.header.min.saturating_sub(1),
            sum: ltx.header.pre,
        };
        if want == have {
            Ok(())
        } else {
            Err(HaltFault::Behind { have, want })
        }
    }

    /// The permit that is out.
    pub fn out(&mut self, now: u64) -> Option<HaltPass>
        ensures pass { result ≡ pass_out (at_moment now self.old) }
        ensures moment { self.new ≡ at_moment now self.old }
    {
        self.moment = self.moment.max(now);
        self.last.filter(|pass| self.moment < pass.until)
    }

    fn check(&mut self, now: u64, number: u64) -> Result<(), HaltFault>
        ensures ok { OnOk result (use_refusal (at_moment now self.old) number ≡ None) }
        ensures cause { IfErr result (λ fault. use_refusal (at_moment now self.old) number ≡ Some fault) }
        ensures moment { self.new ≡ at_moment now self.old }
    {
        match self.out(now) {
            Some(pass) if pass.number == number => Ok(()),
            _ => Err(HaltFault::HaltGone { number }),
        }
    }
}
