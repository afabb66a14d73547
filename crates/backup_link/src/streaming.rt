//! One exchange over a link: the request, the head of the reply, and the frames.
ghost use Rattle.std.specs.Prelude.{◌≡◌, false, List, [], IfErr, OnErr};
ghost use Rattle.http_exchange.specs.Exchange.{FaultsBy, TurnsBy};
ghost use Rattle.ltx_backup.specs.Adding.{Breaks};
ghost use Rattle.ltx_backup.specs.Causes.{AreHonest, HasCauses};
ghost use Rattle.ltx_codec.specs.declared.file.Ltx.{Ltx};
ghost use Rattle.backup_link.specs.Endings.{of_backup, of_network};
ghost use Rattle.backup_link.specs.Fetching.{Talks, stream_request};
ghost use Rattle.backup_link.specs.Keeping.{ButForDisk, KeepsAdded};
ghost use Rattle.backup_link.specs.Streaming.{Replies};

use crate::following::follow;
use crate::frames::Frames;
use crate::head_reading::read_head;
use crate::origin::Origin;
use crate::requesting::send_request;
use crate::unfetched::Unfetched;
use http_exchange::Untold;
use lf_base::{Link, Name};
use lf_disk::Disk;
use link_session::{Piece, Turns};
use ltx_backup::Backup;
use std::alloc::Global;

/// The status of a stream.
const OK: u16 = 200;

/// Asks for the stream from the backup's end on, and adds what comes.
pub(crate) fn talk<L: Link, D: Disk>(
    alloc: Global,
    link: &mut L,
    origin: &Origin<'_>,
    backup: &mut Backup<D>,
    turns: &mut Turns,
) -> Result<(), Unfetched>
    requires sound { backup.old.broken ≡ false }
    ensures talks { (files : List Ltx) × ButForDisk (of_backup result) (KeepsAdded (AreHonest (D.honest backup.old.low) (D.honest backup.old.middle) (D.honest backup.old.high))
        (record { index = backup.old.index; low = D.history backup.old.low; middle = D.history backup.old.middle; high = D.history backup.old.high })
        (record { index = backup.new.index; low = D.history backup.new.low; middle = D.history backup.new.middle; high = D.history backup.new.high }) files)
        × Talks (stream_request origin.now.address.now origin.now.name.now backup.old.index.end) origin.now.name.now
        (L.given link.old) (L.given link.new) (L.taken link.old) (L.taken link.new) (L.left link.new) files result }
    ensures fault { FaultsBy (L.faults link.old) (L.faults link.new) (of_network result) }
    ensures turns { TurnsBy turns.old turns.new (of_network result) }
    ensures breaks { Breaks backup.old.broken (of_backup result) backup.new.broken }
    ensures honest { (D.honest backup.new.low ≡ D.honest backup.old.low) × (D.honest backup.new.middle ≡ D.honest backup.old.middle) × (D.honest backup.new.high ≡ D.honest backup.old.high) }
    ensures cause { HasCauses (record { low = D.faults backup.old.low; middle = D.faults backup.old.middle; high = D.faults backup.old.high })
        (record { low = D.faults backup.new.low; middle = D.faults backup.new.middle; high = D.faults backup.new.high }) (of_backup result) }
{
    let here = backup.index.end;
    match send_request(alloc, link, origin, here, turns) {
        Ok(()) => {}
        Err(why) => return Err(Unfetched::Untold(why)),
    }
    read_reply(alloc, link, origin.name, backup, turns)
}

/// Reads the reply's head, and follows the frames behind it.
fn read_reply<L: Link, D: Disk>(
    alloc: Global,
    link: &mut L,
    name: &Name,
    backup: &mut Backup<D>,
    turns: &mut Turns,
) -> Result<(), Unfetched>
    requires sound { backup.old.broken ≡ false }
    ensures replies { Replies L.Link name.now link.old link.new (λ files. ButForDisk (of_backup result)
        (KeepsAdded (AreHonest (D.honest backup.old.low) (D.honest backup.old.middle) (D.honest backup.old.high))
        (record { index = backup.old.index; low = D.history backup.old.low; middle = D.history backup.old.middle; high = D.history backup.old.high })
        (record { index = backup.new.index; low = D.history backup.new.low; middle = D.history backup.new.middle; high = D.history backup.new.high }) files)) result }
    ensures fault { FaultsBy (L.faults link.old) (L.faults link.new) (of_network result) }
    ensures turns { TurnsBy turns.old turns.new (of_network result) }
    ensures breaks { Breaks backup.old.broken (of_backup result) backup.new.broken }
    ensures honest { (D.honest backup.new.low ≡ D.honest backup.old.low) × (D.honest backup.new.middle ≡ D.honest backup.old.middle) × (D.honest backup.new.high ≡ D.honest backup.old.high) }
    ensures cause { HasCauses (record { low = D.faults backup.old.low; middle = D.faults backup.old.middle; high = D.faults backup.old.high })
        (record { low = D.faults backup.new.low; middle = D.faults backup.new.middle; high = D.faults backup.new.high }) (of_backup result) }
{
    let mut piece = match Piece::new(alloc) {
        Ok(piece) => piece,
        Err(_) => return Err(Unfetched::Untold(Untold::NoMemory)),
    };
    let status = match read_head(alloc, link, &mut piece, turns) {
        Ok(status) => status,
        Err(why) => return Err(Unfetched::Untold(why)),
    };
    if status != OK {
        return Err(Unfetched::Reply);
    }
    let mut frames = match Frames::from_piece(alloc, piece) {
        Ok(frames) => frames,
        Err(_) => return Err(Unfetched::Untold(Untold::NoMemory)),
    };
    follow(alloc, name, link, &mut frames, backup, turns)
}
