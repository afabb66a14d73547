//! A change is committed: its file is drafted, published, and the log then pruned.
ghost use Rattle.std.specs.Prelude.{◌≡◌, IsTrue, IfErr, IfOk, Err, Ok, OnOk, OnErr, ◌↔◌, ◌<◌, ◌^◌, ◌≤◌};
ghost use Rattle.world_laws.specs.Store.{Commit};
ghost use Rattle.txn_log.specs.Fields.{CallBreaks, CallWent, CommitsBy, HasSameFiles, HasShape, drafted_by, CallBreaksPruned, CallWentPruned};
ghost use Rattle.txn_log.specs.Store.{end_of_entries};
ghost use Rattle.lf_sqlite_pages.specs.Change.{IsChange};
ghost use Rattle.ltx_codec.specs.Format.{IsFile, FitsWidths};
ghost use Rattle.txn_log.specs.Draft.{file_with, AreSums, IsWithin, Drafts};

use crate::entry::Attempt;
use crate::fault::StoreFault;
use crate::publishing::publish;
use crate::store::Store;
use crate::sums::{sums_of, total_after};
use lf_base::Pos;
use lf_disk::Disk;
use lf_sqlite_pages::{Change, is_within_limit};
use ltx_codec::{Header, Ltx};
use page_checksum::Sums;

impl<D: Disk> Store<D> {
    /// Commits a change as the next transaction, with one file. It is the file that `draft` of this
    /// change gives, and it refuses what `draft` refuses, and where the disk fails.
    pub fn commit(&mut self, change: Change, stamp: u64, node: u64) -> Result<Pos, StoreFault>
        ensures commits { CommitsBy self.old change stamp node result }
        ensures cause { CallBreaks self.old result self.new }
        ensures shape { OnOk result (HasShape self.new change.page_size change.commit) }
        ensures position { IfOk result (λ told. end_of_entries self.new.entries.items ≡ told) }
        ensures same { OnErr result (HasSameFiles self.old self.new) }

        // What a crash leaves at each moment.
        ensures went { IsTrue (D.honest self.old.disk)
            → CallWent self.old (Commit (drafted_by self.old change stamp node)) result self.new }
        ensures honest { D.honest self.new.disk ≡ D.honest self.old.disk }
    {
        match self.draft_summed(change, stamp, node) {
            Ok((file, known)) => publish(self, &file, known.as_slice(), Attempt::Commit),
            Err(fault) => Err(fault),
        }
    }
}

/// Whether there is a next number, and the database stays within its limit.
fn is_within(position: Pos, change: &Change) -> bool
    ensures within { IsTrue result ↔ IsWithin position change.now }
    ensures valid { IsChange change.now }
{
    let _pages = change.pages();
    position.txid < u64::MAX && is_within_limit(change.page_size(), change.commit())
}

/// The file of a complete change behind a position.
fn file_behind(
    position: Pos,
    sums: &Sums,
    change: Change,
    known: &[u64],
    stamp: u64,
    node: u64,
) -> Ltx
    requires within { IsWithin position change }
    requires known { AreSums known.now change.pages }
    ensures value { result ≡ file_with position sums.now.sums change stamp node }
    ensures widths { FitsWidths result.header × (result.post < 2 ^ 64) }
{
    let next = position.txid + 1;
    let post = total_after(sums, &change, known);
    let header = Header {
        page_size: change.page_size(),
        commit: change.commit(),
        min: next,
        max: next,
        stamp,
        pre: position.sum,
        wal_offset: 0,
        wal_size: 0,
        wal_salt1: 0,
        wal_salt2: 0,
        node,
    };
    Ltx {
        header,
        change,
        post,
    }
}

impl<D: Disk> Store<D> {
    /// The file that `commit` of this change would publish, or why it would refuse: the change made
    /// complete in place, the sums and the limits. The disk is not asked. `stamp` is in milliseconds
    /// since the Unix epoch.
    pub fn draft(&self, change: Change, stamp: u64, node: u64) -> Result<Ltx, StoreFault>
        ensures drafts { Drafts self.now.broken (end_of_entries self.now.entries.items) self.now.page_size self.now.commit
            self.now.sums.sums change stamp node result }
        ensures valid { IfOk result IsFile }
        ensures change { OnOk result (IsChange change) }
    {
        match self.draft_summed(change, stamp, node) {
            Ok((file, _)) => Ok(file),
            Err(fault) => Err(fault),
        }
    }

    /// The same, with the sums of its pages.
    fn draft_summed(
        &self,
        change: Change,
        stamp: u64,
        node: u64,
    ) -> Result<(Ltx, Vec<u64>), StoreFault>
        ensures ok { IfOk result (λ drafted. Drafts self.now.broken (end_of_entries self.now.entries.items) self.now.page_size self.now.commit
            self.now.sums.sums change stamp node (Ok drafted.0)) }
        ensures err { IfErr result (λ fault. Drafts self.now.broken (end_of_entries self.now.entries.items) self.now.page_size self.now.commit
            self.now.sums.sums change stamp node (Err fault)) }
        ensures valid { IfOk result (λ drafted. IsFile drafted.0) }
        ensures sums { IfOk result (λ drafted. AreSums drafted.1.items drafted.0.change.pages) }
        ensures change { OnOk result (IsChange change) }
    {
        if self.broken {
            return Err(StoreFault::Broken);
        }
        if !change.fits(self.page_size, self.commit) {
            return Err(StoreFault::PageSize {
                have: self.page_size,
                want: change.page_size(),
            });
        }
        let position = self.pos();
        if !is_within(position, &change) {
            return Err(StoreFault::Limit);
        }
        let mut complete = change;
        match complete.complete(self.commit) {
            Ok(()) => {}
            Err(_) => return Err(StoreFault::NoMemory),
        }
        let known = sums_of(*self.entries.allocator(), &complete);
        let sums = known.as_slice();
        let file = file_behind(position, &self.sums, complete, sums, stamp, node);
        Ok((file, known))
    }
}

impl<D: Disk> Store<D> {
    /// Commits a change, and removes all but the last `keep` files. The answer is the commit's, also
    /// where the prune failed.
    pub fn commit_and_prune(
        &mut self,
        change: Change,
        stamp: u64,
        node: u64,
        keep: u64,
    ) -> Result<Pos, StoreFault>
        requires { 1 ≤ keep }
        ensures commits { CommitsBy self.old change stamp node result }
        ensures cause { CallBreaksPruned self.old result self.new }
        ensures shape { OnOk result (HasShape self.new change.page_size change.commit) }
        ensures position { IfOk result (λ told. end_of_entries self.new.entries.items ≡ told) }
        ensures same { OnErr result (HasSameFiles self.old self.new) }

        // What a crash leaves at each moment.
        ensures went { IsTrue (D.honest self.old.disk) → CallWentPruned
            self.old (Commit (drafted_by self.old change stamp node)) keep result self.new }
        ensures honest { D.honest self.new.disk ≡ D.honest self.old.disk }
    {
        match self.commit(change, stamp, node) {
            Ok(position) => {
                let _ = self.prune(keep);
                Ok(position)
            }
            Err(fault) => Err(fault),
        }
    }
}
