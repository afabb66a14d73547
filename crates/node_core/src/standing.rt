//! What a node is in its cluster.
ghost use Rattle.std.specs.Prelude.{◌≡◌};
ghost use Rattle.node_core.specs.Roles.{files_at, in_force, permit_out, permits_of, role_of, write_permit};
ghost use Rattle.halt_forward.specs.Permits.{pass_out, unless_ended, use_refusal};

use file_view::{Role, View};
use halt_forward::{HaltFault, HaltPass, HaltTable};
use lease_core::Belief;

/// What a node believes of its own lease, the write permits that it got and gave out, and the greatest
/// moment that it was given.
#[derive(Clone, Copy)]
pub struct Standing {
    pub belief: Belief,
    pub moment: u64,
    /// The permit that it got.
    pub pass: Option<HaltPass>,
    /// Those that it gave out.
    pub permits: HaltTable,
}

impl Standing {
    /// What the node is at its moment.
    pub(crate) fn role(&self) -> Role
        ensures { result ≡ role_of self.now }
    {
        if self.belief.may_commit(self.moment) {
            return Role::Primary;
        }
        match self.pass_in_force() {
            Some(_) => Role::Halted,
            None => Role::Replica,
        }
    }

    /// The permit that it got, unless it has ended.
    fn pass_in_force(&self) -> Option<HaltPass>
        ensures { result ≡ unless_ended self.now.moment self.now.pass }
    {
        self.pass.filter(|pass| self.moment < pass.until)
    }

    /// The same, where a permit that it got goes once it has ended or a lease is believed in.
    pub(crate) fn in_force(self) -> Standing
        ensures { result ≡ in_force self }
    {
        let pass = if self.belief.may_commit(self.moment) {
            None
        } else {
            self.pass_in_force()
        };
        Standing { pass, ..self }
    }

    /// The permit that is out at its moment.
    pub(crate) fn given_out(&self) -> Option<HaltPass>
        ensures { result ≡ pass_out (permits_of self.now) }
    {
        let mut permits = self.permits;
        permits.out(self.moment)
    }

    /// Why nothing is done under the permit of this number at its moment: it isn't out.
    pub(crate) fn refuses_use(&self, number: u64) -> Option<HaltFault>
        ensures { result ≡ use_refusal (permits_of self.now) number }
    {
        match self.given_out() {
            Some(pass) if pass.number == number => None,
            _ => Some(HaltFault::HaltGone { number }),
        }
    }

    /// The permit that it has out: only a primary has one.
    pub(crate) fn permit_out(&self) -> Option<HaltPass>
        ensures { result ≡ permit_out self.now }
    {
        match self.role() {
            Role::Primary => self.given_out(),
            Role::Replica | Role::Halted => None,
        }
    }

    /// The permit that it writes under: only a halted node has one.
    pub(crate) fn write_permit(&self) -> Option<HaltPass>
        ensures { result ≡ write_permit self.now }
    {
        match self.role() {
            Role::Halted => self.pass_in_force(),
            Role::Primary | Role::Replica => None,
        }
    }

    /// At a replica the uncommitted pages go.
    pub(crate) fn settle(&self, view: &mut View)
        ensures { view.new ≡ files_at (role_of self.now) view.old }
    {
        match self.role() {
            Role::Replica => view.drop_uncommitted(),
            Role::Primary | Role::Halted => {}
        }
    }
}
