//! A frame that came is added.
ghost use Rattle.std.specs.Prelude.{◌≡◌, ◌≢◌, ◌∷◌, [], true, false, Ok, ℕ, List, IfErr, MatchBool, OnErr, OnOk};
ghost use Rattle.lf_base.specs.declared.pos.Pos.{Pos};
ghost use Rattle.ltx_backup.specs.Adding.{Breaks};
ghost use Rattle.ltx_backup.specs.Causes.{AreHonest, HasCauses};
ghost use Rattle.ltx_codec.specs.Fields.{AreBytes};
ghost use Rattle.ltx_codec.specs.Format.{IsLtx};
ghost use Rattle.ltx_codec.specs.Places.{IsRefused};
ghost use Rattle.ltx_codec.specs.declared.file.Ltx.{Ltx};
ghost use Rattle.stream_wire.specs.Frame.{frame_text};
ghost use Rattle.stream_wire.specs.declared.frame.Frame.TheVariants as frames;
ghost use Rattle.backup_link.specs.Endings.{of_backup};
ghost use Rattle.backup_link.specs.Fetching.{IsFileFrame, StopsAt};
ghost use Rattle.backup_link.specs.Following.{ended_by};
ghost use Rattle.backup_link.specs.Keeping.{ButForDisk, KeepsAdded};
ghost use Rattle.backup_link.specs.Adding.{RefusesBytes};

use crate::unfetched::Unfetched;
use http_exchange::Untold;
use lf_base::Name;
use lf_disk::Disk;
use ltx_backup::Backup;
use ltx_codec::{LtxFault, decode};
use std::alloc::Global;
use stream_wire::Frame;

/// Adds the file of a frame, and answers whether the frame says that the backup is level.
pub(crate) fn add_frame<D: Disk>(
    alloc: Global,
    name: &Name,
    frame: Frame,
    backup: &mut Backup<D>,
) -> Result<bool, Unfetched>
    requires sound { backup.old.broken ≡ false }
    ensures file { result ≡ Ok false → (file : Ltx) × IsFileFrame name.now (frame_text frame) file
        × KeepsAdded (AreHonest (D.honest backup.old.low) (D.honest backup.old.middle) (D.honest backup.old.high))
        (record { index = backup.old.index; low = D.history backup.old.low; middle = D.history backup.old.middle; high = D.history backup.old.high })
        (record { index = backup.new.index; low = D.history backup.new.low; middle = D.history backup.new.middle; high = D.history backup.new.high }) (file ∷ []) }
    ensures level { result ≡ Ok true → (pos : Pos) × (frame_text frame ≡ frame_text (frames.Ready name.now pos)) }
    ensures stops { IfErr result (StopsAt name.now (frame_text frame)) }
    ensures same { result ≢ Ok false → ButForDisk (of_backup (ended_by result)) (KeepsAdded (AreHonest (D.honest backup.old.low) (D.honest backup.old.middle) (D.honest backup.old.high))
        (record { index = backup.old.index; low = D.history backup.old.low; middle = D.history backup.old.middle; high = D.history backup.old.high })
        (record { index = backup.new.index; low = D.history backup.new.low; middle = D.history backup.new.middle; high = D.history backup.new.high }) []) }
    ensures breaks { Breaks backup.old.broken (of_backup result) backup.new.broken }
    ensures honest { (D.honest backup.new.low ≡ D.honest backup.old.low) × (D.honest backup.new.middle ≡ D.honest backup.old.middle) × (D.honest backup.new.high ≡ D.honest backup.old.high) }
    ensures cause { HasCauses (record { low = D.faults backup.old.low; middle = D.faults backup.old.middle; high = D.faults backup.old.high })
        (record { low = D.faults backup.new.low; middle = D.faults backup.new.middle; high = D.faults backup.new.high }) (of_backup result) }
{
    match frame {
        Frame::Ltx { name: of, bytes } => {
            if !is_same(&of, name) {
                return Err(Unfetched::Untold(Untold::Unfit));
            }
            match add_file(alloc, bytes.as_slice(), backup) {
                Ok(()) => Ok(false),
                Err(why) => Err(why),
            }
        }
        Frame::Ready { name: of, .. } => {
            if is_same(&of, name) {
                Ok(true)
            } else {
                Err(Unfetched::Untold(Untold::Unfit))
            }
        }
        Frame::Drop { name: of } => {
            if is_same(&of, name) {
                Err(Unfetched::Dropped)
            } else {
                Err(Unfetched::Untold(Untold::Unfit))
            }
        }
        Frame::End => Err(Unfetched::Untold(Untold::Unfit)),
    }
}

fn is_same(one: &Name, other: &Name) -> bool
    ensures { MatchBool result (one.now ≡ other.now) (one.now ≢ other.now) }
{
    one.bytes() == other.bytes()
}

/// Adds the file that all of the bytes are.
fn add_file<D: Disk>(alloc: Global, bytes: &[u8], backup: &mut Backup<D>) -> Result<(), Unfetched>
    requires sound { backup.old.broken ≡ false }
    ensures added { OnOk result ((file : Ltx) × IsLtx bytes.now file × KeepsAdded (AreHonest (D.honest backup.old.low) (D.honest backup.old.middle) (D.honest backup.old.high))
        (record { index = backup.old.index; low = D.history backup.old.low; middle = D.history backup.old.middle; high = D.history backup.old.high })
        (record { index = backup.new.index; low = D.history backup.new.low; middle = D.history backup.new.middle; high = D.history backup.new.high }) (file ∷ [])) }
    ensures refused { IfErr result (RefusesBytes bytes.now) }
    ensures same { OnErr result (ButForDisk (of_backup result) (KeepsAdded (AreHonest (D.honest backup.old.low) (D.honest backup.old.middle) (D.honest backup.old.high))
        (record { index = backup.old.index; low = D.history backup.old.low; middle = D.history backup.old.middle; high = D.history backup.old.high })
        (record { index = backup.new.index; low = D.history backup.new.low; middle = D.history backup.new.middle; high = D.history backup.new.high }) [])) }
    ensures breaks { Breaks backup.old.broken (of_backup result) backup.new.broken }
    ensures honest { (D.honest backup.new.low ≡ D.honest backup.old.low) × (D.honest backup.new.middle ≡ D.honest backup.old.middle) × (D.honest backup.new.high ≡ D.honest backup.old.high) }
    ensures cause { HasCauses (record { low = D.faults backup.old.low; middle = D.faults backup.old.middle; high = D.faults backup.old.high })
        (record { low = D.faults backup.new.low; middle = D.faults backup.new.middle; high = D.faults backup.new.high }) (of_backup result) }
{
    let file = match decode(alloc, bytes) {
        Ok(file) => file,
        Err(fault) => return Err(Unfetched::Untold(refused(fault))),
    };
    match backup.add(alloc, &file) {
        Ok(_) => Ok(()),
        Err(why) => Err(Unfetched::Backup(why)),
    }
}

/// What bytes that are no file are to a reply.
fn refused(why: LtxFault) -> Untold
    ensures { (bytes : List ℕ) → AreBytes bytes → IsRefused bytes why → RefusesBytes bytes (Unfetched.Untold result) }
{
    match why {
        LtxFault::NoMemory => Untold::NoMemory,
        _ => Untold::Unfit,
    }
}
