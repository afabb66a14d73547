//! What a node is at its moment, and what a moment ends.
ghost use Rattle.std.specs.Prelude.{◌≡◌, ◌≢◌, true, false};
ghost use Rattle.file_view.specs.declared.view.Role.TheVariants as role;
ghost use Rattle.file_view.specs.Roles.{is_replica};
ghost use Rattle.node_core.specs.Nodes.{at_moment, parts_of, role_in, stands};

use crate::node::Node;
use crate::standing::Standing;
use file_view::Role;
use lf_disk::Disk;

impl<D: Disk> Node<D> {
    /// What it is at its moment.
    pub(crate) fn role(&self) -> Role
        ensures { result ≡ role_in (parts_of self.now) }
    {
        self.standing.role()
    }

    /// Whether it is the primary at its moment.
    pub(crate) fn leads(&self) -> bool
        ensures yes { result ≡ true → role_in (parts_of self.now) ≡ role.Primary }
        ensures no { result ≡ false → role_in (parts_of self.now) ≢ role.Primary }
    {
        matches!(self.role(), Role::Primary)
    }

    /// Whether its files are read alone.
    pub(crate) fn is_replica(&self) -> bool
        ensures { result ≡ is_replica (role_in (parts_of self.now)) }
    {
        matches!(self.role(), Role::Replica)
    }

    /// From now on it stands so, with the permit that it got while that is in force. Where it is a
    /// replica then its uncommitted pages go.
    pub(crate) fn stand(&mut self, standing: Standing)
        ensures parts { parts_of self.new ≡ stands standing (parts_of self.old) }
        ensures store { self.new.store ≡ self.old.store }
    {
        self.view.sound();
        standing.settle(&mut self.view);
        self.standing = standing.in_force();
    }

    /// Gives it a moment. What has expired then ends.
    pub(crate) fn at_moment(&mut self, now: u64)
        ensures parts { parts_of self.new ≡ at_moment (parts_of self.old) now }
        ensures store { self.new.store ≡ self.old.store }
    {
        let moment = self.standing.moment.max(now);
        let standing = Standing {
            moment,
            ..self.standing
        };
        self.stand(standing);
    }
}
