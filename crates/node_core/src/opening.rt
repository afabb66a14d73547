//! A node is opened over a store, and given up again.
ghost use Rattle.std.specs.Prelude.{◌≡◌, IsTrue, IfOk, IfErr};
ghost use Rattle.node_core.specs.Nodes.{history, parts_of, seen, store_of};
ghost use Rattle.node_core.specs.Opening.{first_standing, host_in, opened, seen_opened};
ghost use Rattle.node_core.specs.Stores.{fields_of, history_of};

use crate::config::NodeConfig;
use crate::node::Node;
use crate::standing::Standing;
use file_view::View;
use halt_forward::HaltTable;
use lease_core::Belief;
use lf_base::{NoMemory, Text};
use lf_disk::Disk;
use std::alloc::Global;
use txn_log::Store;

/// The primary's host, if the text names one.
pub(crate) fn host_in(text: &Text) -> Result<Option<Text>, NoMemory>
    ensures { IfOk result (λ host. host ≡ host_in text.now) }
{
    if text.bytes().is_empty() {
        return Ok(None);
    }
    let host = text.copy()?;
    Ok(Some(host))
}

/// What a node stands as before any news. A candidate is primary.
fn first_standing(config: &NodeConfig) -> Standing
    ensures { result ≡ first_standing config.now }
{
    let belief = if config.candidate {
        Belief::always()
    } else {
        Belief::none()
    };
    Standing {
        belief,
        moment: 0,
        pass: None,
        permits: HaltTable::new(config.halt_ttl),
    }
}

/// The served files of a node that is opened.
fn files_of<D: Disk>(alloc: Global, store: &Store<D>, config: &NodeConfig) -> Result<View, NoMemory>
    ensures { IfOk result (λ view. view ≡ (opened (fields_of store.now) config.now).files) }
{
    let mut view = View::new(alloc, &config.name)?;
    let host = host_in(&config.primary_host)?;
    view.told(store.pos(), host);
    Ok(view)
}

impl<D: Disk> Node<D> {
    /// Opens a node over a store. Want of memory gives the store back.
    pub fn open(
        alloc: Global,
        store: Store<D>,
        config: NodeConfig,
    ) -> Result<Node<D>, (NoMemory, Store<D>)>
        ensures parts { IfOk result (λ node. parts_of node ≡ opened (fields_of store) config) }
        ensures store { IfOk result (λ node. store_of node ≡ store) }
        ensures seen { IsTrue (D.honest store.disk) → IfOk result (λ node. seen (history node) (parts_of node) ≡ seen_opened (history_of store) (fields_of store) config) }
        ensures back { IfErr result (λ refused. refused.1 ≡ store) }
    {
        match files_of(alloc, &store, &config) {
            Ok(view) => {
                let standing = first_standing(&config);
                Ok(Node {
                    alloc,
                    store,
                    view,
                    config,
                    standing,
                    held: None,
                    sent: None,
                })
            }
            Err(want) => Err((want, store)),
        }
    }

    /// Gives the node's store back. It takes no memory.
    pub fn into_store(self) -> Store<D>
        ensures { result ≡ store_of self }
    {
        self.store
    }
}
