//! Laws of snapshots, each the contract of a function that does nothing else.
ghost use Rattle.std.specs.Prelude.{◌≡◌, ◌≤◌, IsTrue};
ghost use Rattle.lf_sqlite_pages.specs.Apply.{apply};
ghost use Rattle.lf_sqlite_pages.specs.Image.{SameImage, empty_image};
ghost use Rattle.ltx_codec.specs.Format.{IsFile};
ghost use Rattle.world_laws.specs.Answers.{snapshot_of};
ghost use Rattle.world_laws.specs.Store.{StoreState, Install, at, done};
ghost use Rattle.txn_log.specs.Store.{end_of_entries, state_of};

use lf_disk::Disk;
use ltx_codec::sums_page_by_page;
use txn_log::Store;
use world_laws::snapshot_is_sound;

/// The snapshot of a store that was written is a file within the limits, and its change makes the
/// store's image of nothing.
pub fn snapshot_is_a_file<D: Disk>(store: &Store<D>)
    requires written { 1 ≤ (end_of_entries store.now.entries.items).txid }
    ensures sound { IsTrue (D.honest store.now.disk) → IsFile (snapshot_of (state_of (D.history store.now.disk)
        store.now.page_size store.now.commit store.now.entries.items store.now.dropped store.now.broken store.now.whole)) }
    ensures leads { IsTrue (D.honest store.now.disk) → SameImage
        (apply empty_image (snapshot_of (state_of (D.history store.now.disk) store.now.page_size store.now.commit store.now.entries.items store.now.dropped store.now.broken store.now.whole)).change)
        (state_of (D.history store.now.disk) store.now.page_size store.now.commit store.now.entries.items store.now.dropped store.now.broken store.now.whole).image }
{
    // Only so that the prover has the store's clauses at hand.
    let _position = store.pos();
    snapshot_is_sound();
    sums_page_by_page();
}

/// The snapshot of a store that was written, installed in any other, gives its image and its
/// position.
pub fn snapshot_installs<D: Disk>(store: &Store<D>)
    requires written { 1 ≤ (end_of_entries store.now.entries.items).txid }
    ensures image { IsTrue (D.honest store.now.disk) → (other : StoreState) → SameImage
        (done other (Install (snapshot_of (state_of (D.history store.now.disk) store.now.page_size store.now.commit store.now.entries.items store.now.dropped store.now.broken store.now.whole)))).image
        (state_of (D.history store.now.disk) store.now.page_size store.now.commit store.now.entries.items store.now.dropped store.now.broken store.now.whole).image }
    ensures position { (other state : StoreState) → at (done other (Install (snapshot_of state))) ≡ at state }
{
    snapshot_is_a_file(store);
}
