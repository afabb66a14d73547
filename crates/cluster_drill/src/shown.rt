//! What a node shows when it is looked at.
ghost use Rattle.std.specs.Prelude.{◌≡◌, ◌↔◌, IsTrue, IfOk, Some, None};
ghost use Rattle.cluster_drill.specs.Nodes.{IsAsBefore, IsUnread, Shows, ShowsBytes};

use crate::nodes::{MemNode, ask, position};
use lf_base::{Bytes, NoMemory, Pos};
use node_core::{Answer, Ask, Refusal};
use std::alloc::Global;
use txn_log::StoreFault;

/// Where a node stands, and the bytes of its database, none where it was never written.
#[derive(Drop)]
pub struct Shown {
    pub at: Pos,
    pub bytes: Bytes,
}

impl Shown {
    /// Whether both are at one position, with the same bytes.
    pub(crate) fn is_as(&self, other: &Shown) -> bool
        ensures { IsTrue result ↔ (self.now ≡ other.now) }
    {
        self.at == other.at && self.bytes.as_slice() == other.bytes.as_slice()
    }
}

/// The bytes of a node's database, if its disk gives all pages.
fn bytes_of(alloc: Global, node: &mut MemNode) -> Result<Option<Bytes>, NoMemory>
    ensures shows { IfOk result (ShowsBytes node.old node.new) }
    ensures kept { IsAsBefore node.old node.new }
{
    match ask(node, 0, &Ask::Export) {
        Answer::Bytes(bytes) => Ok(Some(bytes)),
        Answer::Refused(Refusal::Absent) => Ok(Some(Bytes::of(Vec::new(alloc)))),
        Answer::Refused(Refusal::Store(StoreFault::Disk | StoreFault::Broken)) => Ok(None),
        _ => Err(NoMemory),
    }
}

/// What a node shows, if its disk tells it.
pub(crate) fn look(alloc: Global, node: &mut MemNode) -> Result<Option<Shown>, NoMemory>
    ensures shows { IfOk result (Shows node.old node.new) }
    ensures kept { IsAsBefore node.old node.new }
{
    let Some(at) = position(node) else {
        return Ok(None);
    };
    match bytes_of(alloc, node)? {
        Some(bytes) => Ok(Some(Shown { at, bytes })),
        None => Ok(None),
    }
}
