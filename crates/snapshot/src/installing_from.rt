//! A snapshot that a source gives is installed, without memory.
ghost use Rattle.std.specs.Prelude.{◌≡◌, ◌<◌, length, vec_capacity, IsSome, IsTrue, IfOk, OnOk, OnErr};
ghost use Rattle.ltx_codec.specs.declared.file.Ltx.{Ltx};
ghost use Rattle.txn_log.specs.Fields.{CallBreaksFrom, CallWentInstalled, HasSameFiles, HasShape, InstallsFromBy};
ghost use Rattle.txn_log.specs.From.{Gave};
ghost use Rattle.txn_log.specs.Store.{end_of_entries};

use lf_base::{Pos, Source};
use lf_disk::Disk;
use txn_log::{FromFault, Store, publish_anew_from};

/// Makes the pages of the snapshot that a source gives the database, and the snapshot the whole log, as
/// `install` does, without memory but for what was reserved and a page of 65,536 bytes. The source is
/// read to its end, or to the fault that stands earliest.
pub fn install_from<D: Disk, S: Source>(
    store: &mut Store<D>,
    source: &mut S,
    page: &mut [u8],
) -> Result<Pos, FromFault>
    requires reserved { IsSome store.old.decoder }
    requires entry { length store.old.entries.items < vec_capacity store.old.entries }
    requires page { length page.old ≡ 65536 }
    ensures installs { InstallsFromBy store.old (S.left source.old) (S.left source.new) result }
    ensures cause { CallBreaksFrom store.old (S.faults source.old) result store.new (S.faults source.new) }
    ensures shape { OnOk result ((file : Ltx) × Gave (S.left source.old) (S.left source.new) file
        × HasShape store.new file.header.page_size file.header.commit) }
    ensures position { IfOk result (λ told. end_of_entries store.new.entries.items ≡ told) }
    ensures same { OnErr result (HasSameFiles store.old store.new) }
    ensures reader { IsSome store.new.decoder }

    // What a crash leaves at each moment.
    ensures went { IsTrue (D.honest store.old.disk)
        → CallWentInstalled store.old (S.left source.old) (S.left source.new) result store.new }
    ensures honest { D.honest store.new.disk ≡ D.honest store.old.disk }
{
    publish_anew_from(store, source, page)
}
