//! The frames of a stream, added one after another.
ghost use Rattle.std.specs.Prelude.{◌≡◌, ◌≢◌, ◌<◌, ◌++◌, ◌∷◌, [], true, false, Ok, Err, List, IfErr, OnOk};
ghost use Rattle.std.specs.Io.KnownBytes.{IsAtEnd};
ghost use Rattle.http_exchange.specs.Exchange.{FaultsBy, TurnsBy};
ghost use Rattle.ltx_backup.specs.Adding.{Breaks};
ghost use Rattle.ltx_backup.specs.Causes.{AreHonest, HasCauses};
ghost use Rattle.ltx_codec.specs.declared.file.Ltx.{Ltx};
ghost use Rattle.stream_wire.specs.Feeding.{holding};
ghost use Rattle.backup_link.specs.Endings.{of_backup, of_network};
ghost use Rattle.backup_link.specs.Following.{AddsNext, Follows, GaveLast, ended_by};
ghost use Rattle.backup_link.specs.Frames.{frame_limit};
ghost use Rattle.backup_link.specs.Keeping.{ButForDisk, KeepsAdded};

use crate::adding::add_frame;
use crate::frames::Frames;
use crate::unfetched::Unfetched;
use http_exchange::Untold;
use lf_base::{Link, Name};
use lf_disk::Disk;
use link_session::Turns;
use ltx_backup::Backup;
use std::alloc::Global;

/// Adds the file of each frame, until one says that the backup is level. A frame is a turn, and so is each
/// read.
pub(crate) fn follow<L: Link, D: Disk>(
    alloc: Global,
    name: &Name,
    link: &mut L,
    frames: &mut Frames,
    backup: &mut Backup<D>,
    turns: &mut Turns,
) -> Result<(), Unfetched>
    requires sound { backup.old.broken ≡ false }
    requires between { frames.old.feed ≡ holding frame_limit [] }
    ensures follows { Follows L.Link name.now link.old link.new frames.old.piece (λ files. ButForDisk (of_backup result)
        (KeepsAdded (AreHonest (D.honest backup.old.low) (D.honest backup.old.middle) (D.honest backup.old.high))
        (record { index = backup.old.index; low = D.history backup.old.low; middle = D.history backup.old.middle; high = D.history backup.old.high })
        (record { index = backup.new.index; low = D.history backup.new.low; middle = D.history backup.new.middle; high = D.history backup.new.high }) files)) result }
    ensures fault { FaultsBy (L.faults link.old) (L.faults link.new) (of_network result) }
    ensures turns { TurnsBy turns.old turns.new (of_network result) }
    ensures breaks { Breaks backup.old.broken (of_backup result) backup.new.broken }
    ensures honest { (D.honest backup.new.low ≡ D.honest backup.old.low) × (D.honest backup.new.middle ≡ D.honest backup.old.middle) × (D.honest backup.new.high ≡ D.honest backup.old.high) }
    ensures cause { HasCauses (record { low = D.faults backup.old.low; middle = D.faults backup.old.middle; high = D.faults backup.old.high })
        (record { low = D.faults backup.new.low; middle = D.faults backup.new.middle; high = D.faults backup.new.high }) (of_backup result) }
{
    'frames: loop {
        match follow_next(alloc, name, link, frames, backup, turns) {
            Ok(true) => return Ok(()),
            Ok(false) => {}
            Err(why) => return Err(why),
        }
    }
}

/// Reads a frame and adds its file, and answers whether the backup is level.
fn follow_next<L: Link, D: Disk>(
    alloc: Global,
    name: &Name,
    link: &mut L,
    frames: &mut Frames,
    backup: &mut Backup<D>,
    turns: &mut Turns,
) -> Result<bool, Unfetched>
    requires sound { backup.old.broken ≡ false }
    requires between { frames.old.feed ≡ holding frame_limit [] }
    ensures next { result ≡ Ok false
        → AddsNext L.Link name.now link.old link.new frames.old.piece frames.new.piece
        (KeepsAdded (AreHonest (D.honest backup.old.low) (D.honest backup.old.middle) (D.honest backup.old.high))
        (record { index = backup.old.index; low = D.history backup.old.low; middle = D.history backup.old.middle; high = D.history backup.old.high })
        (record { index = backup.new.index; low = D.history backup.new.low; middle = D.history backup.new.middle; high = D.history backup.new.high })) }
    ensures between { OnOk result (frames.new.feed ≡ holding frame_limit []) }
    ensures last { result ≢ Ok false
        → GaveLast L.Link name.now link.old link.new frames.old.piece (KeepsAdded (AreHonest (D.honest backup.old.low) (D.honest backup.old.middle) (D.honest backup.old.high))
        (record { index = backup.old.index; low = D.history backup.old.low; middle = D.history backup.old.middle; high = D.history backup.old.high })
        (record { index = backup.new.index; low = D.history backup.new.low; middle = D.history backup.new.middle; high = D.history backup.new.high }) []) (ended_by result) }
    ensures less { OnOk result (turns.new < turns.old) }
    ensures fault { FaultsBy (L.faults link.old) (L.faults link.new) (of_network result) }
    ensures turns { TurnsBy turns.old turns.new (of_network result) }
    ensures breaks { Breaks backup.old.broken (of_backup result) backup.new.broken }
    ensures honest { (D.honest backup.new.low ≡ D.honest backup.old.low) × (D.honest backup.new.middle ≡ D.honest backup.old.middle) × (D.honest backup.new.high ≡ D.honest backup.old.high) }
    ensures cause { HasCauses (record { low = D.faults backup.old.low; middle = D.faults backup.old.middle; high = D.faults backup.old.high })
        (record { low = D.faults backup.new.low; middle = D.faults backup.new.middle; high = D.faults backup.new.high }) (of_backup result) }
{
    match turns.take() {
        Ok(()) => {}
        Err(_) => return Err(Unfetched::Untold(Untold::Turns)),
    }
    match frames.next(link, turns) {
        Ok(frame) => add_frame(alloc, name, frame, backup),
        Err(why) => Err(Unfetched::Untold(why)),
    }
}
