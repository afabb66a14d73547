//! The commands on a backup. Its three disks go back to the maker on every way out.
ghost use Rattle.std.specs.Prelude.{◌≡◌, ◌++◌, ◌∷◌, [], codes, OnErr, OnOk};
ghost use Rattle.std.specs.Io.KnownBytes.{Appends};
ghost use Rattle.http_exchange.specs.Exchange.{LinksTell};
ghost use Rattle.lf_base.specs.Faults.{CountsFaults};
ghost use Rattle.lf_base.specs.Position.{position_text};
ghost use Rattle.litefs_tool.specs.Disks.{folders_of, BackedUpBack, CountsBackingUp, CountsRestoring, DiskBacks, RestoredBack};
ghost use Rattle.litefs_tool.specs.Output.{AppendsPrefix};
ghost use Rattle.litefs_tool.specs.Streams.{stream};
ghost use Rattle.litefs_tool.specs.steps.Backing.{GoesOverDisks};
ghost use Rattle.litefs_tool.specs.declared.command.Command.TheVariants as command;

use crate::failure::Failure;
use crate::folders::{Folders, give_back};
use crate::output::{new_buffer, write_image, write_whole};
use crate::remote::Remote;
use backup_link::{Origin, Unfetched};
use lf_base::{Failed, Handles, Name, Pos, Sink, pos_text};
use lf_sqlite_pages::Image;
use ltx_backup::BackupFault;
use node_objects::Maker;
use std::alloc::Global;

/// For how many milliseconds a dial, or a read or a write on its link, may wait. A node that is asked may
/// have a whole database to read.
const PATIENCE: u64 = 600_000;

/// What is new in a node's database goes into its backup, and where that ends then to the output.
pub(crate) fn back_up<R: Handles, O: Sink, M: Maker>(
    rt: &R,
    alloc: Global,
    remote: Remote,
    output: &mut O,
    make: &mut M,
) -> Result<(), Failure>
    ensures { let backs : DiskBacks = record {
      nothing = (M.back make.new ≡ M.back make.old) × (M.asked make.new ≡ M.asked make.old);
      restored = λ database. RestoredBack M.asked M.may_give M.Disk.honest M.Disk.history M.back make.old make.new (folders_of database);
      backed_up = λ remote. BackedUpBack M.asked M.may_give M.Disk.honest M.Disk.history M.Dial.dials (LinksTell M.Line.given M.Line.taken) M.back make.old make.new remote.address remote.name;
    } in
        GoesOverDisks backs (command.Backup remote) (stream O.taken O.faults output.old output.new) (M.counts make.old) (M.counts make.new) result }
{
    let folders = Folders::of(alloc, &remote.name)?;
    let end = fetch_new(rt, alloc, &remote, &folders, make)?;
    say_end(output, end)?;
    Ok(())
}

/// A backup's database, as it was after a transaction, goes to the output.
pub(crate) fn restore<O: Sink, M: Maker>(
    alloc: Global,
    name: Name,
    txid: u64,
    output: &mut O,
    make: &mut M,
) -> Result<(), Failure>
    ensures { let backs : DiskBacks = record {
      nothing = (M.back make.new ≡ M.back make.old) × (M.asked make.new ≡ M.asked make.old);
      restored = λ database. RestoredBack M.asked M.may_give M.Disk.honest M.Disk.history M.back make.old make.new (folders_of database);
      backed_up = λ remote. BackedUpBack M.asked M.may_give M.Disk.honest M.Disk.history M.Dial.dials (LinksTell M.Line.given M.Line.taken) M.back make.old make.new remote.address remote.name;
    } in
        GoesOverDisks backs (command.Restore name txid) (stream O.taken O.faults output.old output.new) (M.counts make.old) (M.counts make.new) result }
{
    let folders = Folders::of(alloc, &name)?;
    let image = restore_image(alloc, &folders, txid, make)?;
    let mut buffer = new_buffer(alloc)?;
    write_image(output, &image, &mut buffer)?;
    Ok(())
}

/// Fetches what is new into the backup in these folders, by one dial.
fn fetch_new<R: Handles, M: Maker>(
    rt: &R,
    alloc: Global,
    remote: &Remote,
    folders: &Folders,
    make: &mut M,
) -> Result<Pos, Unfetched>
    requires { folders.now ≡ folders_of remote.now.name }
    ensures back { BackedUpBack M.asked M.may_give M.Disk.honest M.Disk.history M.Dial.dials (LinksTell M.Line.given M.Line.taken) M.back make.old make.new remote.now.address remote.now.name result }
    ensures cause { CountsBackingUp (M.counts make.old) (M.counts make.new) result }
{
    let disks = match folders.take_disks(make) {
        Ok(disks) => disks,
        Err(_) => return Err(Unfetched::Backup(BackupFault::Disk)),
    };
    let mut dialer = make.dialer(PATIENCE);
    let origin = Origin {
        name: &remote.name,
        address: &remote.address,
    };
    let (disks, end) = backup_link::back_up(rt, alloc, &mut dialer, &origin, disks);
    make.back_dial(dialer);
    give_back(disks, make);
    end
}

/// Restores the backup in these folders to a transaction.
fn restore_image<M: Maker>(
    alloc: Global,
    folders: &Folders,
    txid: u64,
    make: &mut M,
) -> Result<Image, BackupFault>
    ensures back { RestoredBack M.asked M.may_give M.Disk.honest M.Disk.history M.back make.old make.new folders.now txid result }
    ensures cause { CountsRestoring (M.counts make.old) (M.counts make.new) result }
{
    let disks = match folders.take_disks(make) {
        Ok(disks) => disks,
        Err(_) => return Err(BackupFault::Disk),
    };
    let (disks, restored) = backup_link::restore(alloc, disks, txid);
    give_back(disks, make);
    restored
}

/// Writes where the backup ends.
fn say_end<S: Sink>(sink: &mut S, end: Pos) -> Result<(), Failed>
    ensures whole { OnOk result (Appends (S.taken sink.old) (S.taken sink.new) (codes "backup " ++ position_text end ++ 10 ∷ [])) }
    ensures prefix { OnErr result (AppendsPrefix (S.taken sink.old) (S.taken sink.new) (codes "backup " ++ position_text end ++ 10 ∷ [])) }
    ensures cause { CountsFaults (S.faults sink.old) (S.faults sink.new) result }
{
    write_whole(sink, b"backup ")?;
    write_whole(sink, &pos_text(end))?;
    write_whole(sink, b"\n")
}
