//! The store is lent to the served files, which read pages of it.
//!
//! What a call over any page store leaves of the one that it is given is said of the image alone. So
//! the files are given the store under a brand, which keeps what the store was: whatever the call
//! gives back has been read at most.
ghost use Rattle.std.specs.Prelude.{◌≡◌, ◌≤◌, ℕ, IfOk, OnOk, IfErr, OnErr, min, if◌then◌else◌};
ghost use Rattle.lf_disk.specs.History.{History, untold};
ghost use Rattle.file_view.specs.Done.{IsDone};
ghost use Rattle.file_view.specs.Overlay.{StandsOver, AwaitsOver};
ghost use Rattle.file_view.specs.Needs.{needs_of};
ghost use Rattle.file_view.specs.Refusal.{IsAllowed};
ghost use Rattle.file_view.specs.Requests.{rows_of, scene_of};
ghost use Rattle.node_core.specs.Files.{RefusesBy, told};
ghost use Rattle.node_core.specs.Roles.{role_of};
ghost use Rattle.node_core.specs.Stores.{StoreFields, no_fields, IsRead, fields_of, history_of};

use crate::standing::Standing;
use file_view::{Plan, Role, View, ViewFault};
use fuse_msgs::Request;
use lf_base::Failed;
use lf_disk::Disk;
use lf_sqlite_pages::PageStore;
use std::alloc::Global;
use std::marker::{Brand, PhantomData};
use txn_log::Store;

/// What a store was when it was lent, and under which reference.
pub trait Before {
    ghost name: { ℕ };

    ghost history: { History };

    ghost fields: { StoreFields };
}

impl Before for Brand {
    ghost name = { 0 };

    ghost history = { untold 0 };

    ghost fields = { no_fields };
}

/// A store of which pages were read since it was lent, and nothing else was done.
#[derive(Drop)]
struct Lent<'a, D: Disk, K: Before> {
    store: &'a mut Store<D>,
    of: PhantomData<K>,
    ghost named: { store.ghost_name ≡ K.name },
    ghost read: { IsRead K.history K.fields (history_of store.now) (fields_of store.now) },
}

/// Its faults are those of the disk, and while the store is broken the reads that were refused.
impl<D: Disk, K: Before> PageStore for Lent<'_, D, K> {
    ghost image = { λ s. told (history_of s.store.now) (fields_of s.store.now) };

    ghost page_size = { λ s. s.store.now.page_size };

    ghost commit = { λ s. s.store.now.commit };

    ghost wal_mode = { λ s. s.store.now.wal };

    ghost is_broken = { λ s. s.store.now.broken };

    ghost faults = { λ s. if s.store.now.broken then min s.store.now.refused 18446744073709551615 else D.faults s.store.now.disk };

    fn page_size(&self) -> u32 {
        PageStore::page_size(&*self.store)
    }

    fn commit(&self) -> u32 {
        PageStore::commit(&*self.store)
    }

    fn wal_mode(&self) -> bool {
        PageStore::wal_mode(&*self.store)
    }

    fn is_broken(&self) -> bool {
        PageStore::is_broken(&*self.store)
    }

    fn page(&mut self, n: u32, out: &mut [u8]) -> Result<(), Failed> {
        self.store.read_page(n, out)
    }
}

/// A request, by whom it comes, and what the node is then.
#[derive(Clone, Copy)]
struct Asked<'a> {
    caller: u64,
    role: Role,
    request: &'a Request,
}

/// Prepares a request over a store that is as it was when it was lent, and gives the store back.
fn prepare_lent<'a, K: Before, D: Disk>(
    store: &'a mut Store<D>,
    view: &mut View,
    alloc: Global,
    asked: Asked<'_>,
    planned: &mut Result<Plan, ViewFault>,
) -> &'a mut Store<D>
    requires named { store.ghost_name ≡ K.name }
    requires read { IsRead K.history K.fields (history_of store.old) (fields_of store.old) }
    requires same { fields_of store.old ≡ K.fields }
    requires stands { StandsOver (told (history_of store.old) (fields_of store.old)) store.old.page_size store.old.commit view.old }
    ensures same_reference { result.ghost_name ≡ store.entry.ghost_name }
    ensures read { IsRead K.history K.fields (history_of result.now) (fields_of result.now) }
    ensures done { IfOk planned.new (λ plan. IsDone (told (history_of store.old) (fields_of store.old)) view.old
        (scene_of asked.entry.caller asked.entry.role store.old.page_size store.old.commit store.old.broken) asked.entry.request.now plan view.new) }
    ensures allowed { OnOk planned.new (IsAllowed (rows_of view.old (scene_of asked.entry.caller asked.entry.role store.old.page_size store.old.commit store.old.broken) asked.entry.request.now)) }
    ensures cause { IfErr planned.new (RefusesBy (needs_of view.old asked.entry.request.now)
        (rows_of view.old (scene_of asked.entry.caller asked.entry.role store.old.page_size store.old.commit store.old.broken) asked.entry.request.now)
        K.fields (fields_of result.now)) }
    ensures err { OnErr planned.new (view.new ≡ view.old) }
    ensures name { view.new.name ≡ view.old.name }
    ensures stands { StandsOver (told (history_of store.old) (fields_of store.old)) store.old.page_size store.old.commit view.new }
    ensures awaits { IfOk planned.new (AwaitsOver (told (history_of store.old) (fields_of store.old)) view.new) }
{
    let mut lent = Lent {
        store,
        of: PhantomData::<K>,
    };
    *planned = view.prepare(alloc, asked.caller, asked.role, asked.request, &mut lent);
    let Lent { store, .. } = lent;
    store
}

/// Prepares a request over a store, of which pages are read at most.
pub fn prepare<D: Disk>(
    store: &mut Store<D>,
    view: &mut View,
    alloc: Global,
    caller: u64,
    standing: &Standing,
    request: &Request,
) -> Result<Plan, ViewFault>
    requires { StandsOver (told (history_of store.old) (fields_of store.old)) store.old.page_size store.old.commit view.old }
    ensures read { IsRead (history_of store.old) (fields_of store.old) (history_of store.new) (fields_of store.new) }
    ensures done { IfOk result (λ plan. IsDone (told (history_of store.old) (fields_of store.old)) view.old
        (scene_of caller (role_of standing.now) store.old.page_size store.old.commit store.old.broken) request.now plan view.new) }
    ensures allowed { OnOk result (IsAllowed (rows_of view.old (scene_of caller (role_of standing.now) store.old.page_size store.old.commit store.old.broken) request.now)) }
    ensures cause { IfErr result (RefusesBy (needs_of view.old request.now) (rows_of view.old
        (scene_of caller (role_of standing.now) store.old.page_size store.old.commit store.old.broken) request.now)
        (fields_of store.old) (fields_of store.new)) }
    ensures err { OnErr result (view.new ≡ view.old) }
    ensures name { view.new.name ≡ view.old.name }
    ensures stands { StandsOver (told (history_of store.old) (fields_of store.old)) store.old.page_size store.old.commit view.new }
    ensures awaits { IfOk result (AwaitsOver (told (history_of store.old) (fields_of store.old)) view.new) }
{
    let asked = Asked {
        caller,
        role: standing.role(),
        request,
    };
    let mut planned = Err(ViewFault::NoMemory);
    prepare_lent::<Brand, D>(store, view, alloc, asked, &mut planned);
    planned
}
