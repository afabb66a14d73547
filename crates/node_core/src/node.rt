ghost use Rattle.std.specs.Prelude.{◌≡◌, true, None, IsTrue, is_some};
ghost use Rattle.std.proofs.Props.{props};
ghost use Rattle.file_view.specs.declared.view.Role.TheVariants as role;
ghost use Rattle.file_view.specs.Overlay.{FitsImage, IsOverImage};
ghost use Rattle.file_view.specs.Served.{waits};
ghost use Rattle.byte_locks.specs.LockList.{IsLockList};
ghost use Rattle.lease_core.specs.Belief.{may_commit};
ghost use Rattle.node_core.specs.Roles.{role_of};
ghost use Rattle.node_core.specs.Stores.{fields_of, history_of, position, state, told as shown};
ghost use Rattle.node_core.specs.Waiting.{Waits, Waits-prop};

use crate::config::NodeConfig;
use crate::held_back::HeldBack;
use crate::sent::Sent;
use crate::standing::Standing;
use file_view::View;
use lf_disk::Disk;
use std::alloc::Global;
use txn_log::Store;

/// A node: the served files of a database over its store.
///
/// The files are of the database that the node was given. They stand over the committed image, and
/// tell the store's position. At a replica nobody has uncommitted pages. A primary has no permit of
/// another. A request waits between two steps only where its commit was sent; once that is committed
/// here, and the request is done, the files stand over the new image. Different owners share a lock
/// only for reading.
#[derive(Drop)]
pub struct Node<D: Disk> {
    pub(crate) alloc: Global,
    pub(crate) store: Store<D>,
    pub(crate) view: View,
    pub(crate) config: NodeConfig,
    pub(crate) standing: Standing,
    pub(crate) held: Option<HeldBack>,
    pub(crate) sent: Option<Sent>,
    ghost shape: { FitsImage view store.page_size store.commit },
    ghost image: { IsTrue (D.honest store.disk) → IsOverImage view (state (history_of store) (fields_of store)).image } by { Prim.hlevel props },
    ghost named: { view.name ≡ config.name } by { Prim.hlevel props },
    ghost told: { view.position ≡ position (fields_of store) },
    ghost replica: { role_of standing ≡ role.Replica → view.writer ≡ None } by { Prim.hlevel props },
    ghost alone: { may_commit standing.belief standing.moment ≡ true → standing.pass ≡ None } by { Prim.hlevel props },
    ghost idle: { waits view ≡ is_some sent },
    ghost awaits: { Waits (shown (history_of store) (fields_of store)) (fields_of store) view sent } by { Waits-prop (shown (history_of store) (fields_of store)) (fields_of store) view sent },
    ghost locked: { IsLockList view.locks } by { Prim.hlevel props },
}
