//! A disk as a node sees it. The history is told in full where the disk is honest; of a disk that
//! isn't, the moment alone.
ghost use Rattle.std.specs.Prelude.{◌≡◌, ◌≤◌, ◌↔◌, ℕ, Bool, Option, length, IsTrue, IsSome, IfOk, OnOk, OnErr, Contains, option_map};
ghost use Rattle.std.specs.List.{IsDistinct};
ghost use Rattle.lf_base.specs.Faults.{CountsFaults};
ghost use Rattle.lf_base.specs.declared.errno.Errno.{Errno};
ghost use Rattle.lf_base.specs.FileBytes.{Reads};
ghost use Rattle.lf_disk.specs.Folder.{same_name, Same, bytes_of};
ghost use Rattle.lf_disk.specs.Change.{Both, OnFile, Perhaps, Writes, Cuts, Renames, TearsFile, CropsFile, SetsFile};
ghost use Rattle.lf_disk.specs.SystemError.{is_want_of_room};
ghost use Rattle.lf_disk.specs.History.{History, now, Rests, Ticks, Moves, EachMoment, Keeps, MayLeave, Passes};

use crate::list_fault::ListFault;
use crate::name::FileName;
use crate::system_error::is_want_of_room;
use lf_base::{Errno, Failed};

/// The files of a node. Over an honest disk each call does what its clauses say of the history.
/// A call that changes something may fail with all of its effect, none of it or a part.
pub trait Disk {
    ghost use Rattle.lf_disk.specs.declared.name.FileName.{FileName as Name};
    ghost use Rattle.lf_disk.specs.ListFault.{CountsListFaults, KeepsUnlessFailed};

    /// Whether its history is true. No call changes it.
    ghost honest: { Self → Bool };

    /// The moments so far, what every file read as at each, and what a crash at each may leave.
    ghost history: { Self → History };

    /// How many of its calls have failed; it stays at the last number of a u64.
    ghost faults: { Self → ℕ };

    /// The number of the system's error at the call that failed last, where it gave one (errno(3)).
    ghost error: { Self → Option Errno };

    /// The length of a file in bytes, None where it is absent.
    fn size(&mut self, name: FileName) -> Result<Option<u64>, Failed>
        ensures size { IsTrue (honest self.old) → IfOk result
            (λ size. size ≡ option_map length (now (history self.old) name)) }
        ensures rests { Rests (history self.old) (history self.new) }
        ensures honest { honest self.new ≡ honest self.old }
        ensures cause { CountsFaults (faults self.old) (faults self.new) result }
        ensures error { OnOk result (error self.new ≡ error self.old) };

    /// Puts the bytes from an offset on in front of `out`, as many as there are, and answers how
    /// many. An absent file has none.
    fn read(&mut self, name: FileName, at: u64, out: &mut [u8]) -> Result<usize, Failed>
        ensures read { IsTrue (honest self.old) → IfOk result
            (Reads (bytes_of (now (history self.old) name)) at out.old out.new) }
        ensures count { IfOk result (λ n. n ≤ length out.new) }
        ensures rests { Rests (history self.old) (history self.new) }
        ensures honest { honest self.new ≡ honest self.old }
        ensures cause { CountsFaults (faults self.old) (faults self.new) result }
        ensures error { OnOk result (error self.new ≡ error self.old) };

    /// Writes bytes at an offset. It makes a file that is absent, and fills a gap with zeros.
    fn write(&mut self, name: FileName, at: u64, bytes: &[u8]) -> Result<(), Failed>
        ensures done { IsTrue (honest self.old) → OnOk result
            (Moves (OnFile name (Writes at bytes.now)) (TearsFile name at (length bytes.now))
            (history self.old) (history self.new)) }
        ensures failed { IsTrue (honest self.old) → OnErr result
            (Moves (TearsFile name at (length bytes.now)) (TearsFile name at (length bytes.now))
            (history self.old) (history self.new)) }
        ensures ticks { Ticks result (history self.old) (history self.new) }
        ensures honest { honest self.new ≡ honest self.old }
        ensures cause { CountsFaults (faults self.old) (faults self.new) result }
        ensures error { OnOk result (error self.new ≡ error self.old) };

    /// Gives a file this length. It makes one that is absent, and what is new is zeros.
    fn cut(&mut self, name: FileName, len: u64) -> Result<(), Failed>
        ensures done { IsTrue (honest self.old) → OnOk result
            (Moves (OnFile name (Cuts len)) (CropsFile name len)
            (history self.old) (history self.new)) }
        ensures failed { IsTrue (honest self.old) → OnErr result
            (Moves (CropsFile name len) (CropsFile name len)
            (history self.old) (history self.new)) }
        ensures ticks { Ticks result (history self.old) (history self.new) }
        ensures honest { honest self.new ≡ honest self.old }
        ensures cause { CountsFaults (faults self.old) (faults self.new) result }
        ensures error { OnOk result (error self.new ≡ error self.old) };

    /// After Ok a crash leaves of this file what a read gives.
    fn sync(&mut self, name: FileName) -> Result<(), Failed>
        ensures done { IsTrue (honest self.old) → OnOk result
            (Moves Same (SetsFile name (now (history self.old) name))
            (history self.old) (history self.new)) }
        ensures failed { IsTrue (honest self.old) → OnErr result
            (Moves Same (Perhaps (SetsFile name (now (history self.old) name)))
            (history self.old) (history self.new)) }
        ensures ticks { Ticks result (history self.old) (history self.new) }
        ensures honest { honest self.new ≡ honest self.old }
        ensures cause { CountsFaults (faults self.old) (faults self.new) result }
        ensures error { OnOk result (error self.new ≡ error self.old) };

    /// Syncs two files. After Ok a crash leaves of both what a read gives; on the way and after a failure
    /// of none, of one, or of both.
    fn sync_both(&mut self, one: FileName, other: FileName) -> Result<(), Failed>
        ensures done { IsTrue (honest self.old) → OnOk result
            (Moves Same (Both (Keeps one (history self.old)) (Keeps other (history self.old)))
            (history self.old) (history self.new)) }
        ensures failed { IsTrue (honest self.old) → OnErr result
            (Moves Same (Both (Perhaps (Keeps one (history self.old))) (Perhaps (Keeps other (history self.old))))
            (history self.old) (history self.new)) }
        ensures moments { IsTrue (honest self.old) → EachMoment (history self.old) (history self.new)
            (MayLeave (Both (Perhaps (Keeps one (history self.old))) (Perhaps (Keeps other (history self.old))))
            (history self.old)) }
        ensures passes { Passes (history self.old) (history self.new) }
        ensures honest { honest self.new ≡ honest self.old }
        ensures cause { CountsFaults (faults self.old) (faults self.new) result }
        ensures error { OnOk result (error self.new ≡ error self.old) }
    {
        self.sync(one)?;
        self.sync(other)
    }

    /// Gives a file that is there another name, in place of what has that name. It is done at once
    /// and stays after Ok.
    fn rename(&mut self, from: FileName, to: FileName) -> Result<(), Failed>
        requires { IsTrue (honest self.old) → IsSome (now (history self.old) from) }
        ensures done { IsTrue (honest self.old) → OnOk result
            (Moves (Renames from to) (Renames from to)
            (history self.old) (history self.new)) }
        ensures failed { IsTrue (honest self.old) → OnErr result
            (Moves (Perhaps (Renames from to)) (Perhaps (Renames from to))
            (history self.old) (history self.new)) }
        ensures ticks { Ticks result (history self.old) (history self.new) }
        ensures honest { honest self.new ≡ honest self.old }
        ensures cause { CountsFaults (faults self.old) (faults self.new) result }
        ensures error { OnOk result (error self.new ≡ error self.old) };

    /// Removes a file, which may be absent. It is done at once and stays after Ok.
    fn remove(&mut self, name: FileName) -> Result<(), Failed>
        ensures done { IsTrue (honest self.old) → OnOk result
            (Moves (SetsFile name None) (SetsFile name None)
            (history self.old) (history self.new)) }
        ensures failed { IsTrue (honest self.old) → OnErr result
            (Moves (Perhaps (SetsFile name None)) (Perhaps (SetsFile name None))
            (history self.old) (history self.new)) }
        ensures ticks { Ticks result (history self.old) (history self.new) }
        ensures honest { honest self.new ≡ honest self.old }
        ensures cause { CountsFaults (faults self.old) (faults self.new) result }
        ensures error { OnOk result (error self.new ≡ error self.old) };

    /// The name of every file, in any order.
    fn list(&mut self) -> Result<Vec<FileName>, ListFault>
        ensures names { IsTrue (honest self.old) → IfOk result
            (λ names. (n : Name) → Contains names.items n ↔ IsSome (now (history self.old) n)) }
        ensures distinct { IsTrue (honest self.old) → IfOk result
            (λ names. IsDistinct same_name names.items) }
        ensures rests { Rests (history self.old) (history self.new) }
        ensures honest { honest self.new ≡ honest self.old }
        ensures cause { CountsListFaults (faults self.old) (faults self.new) result }
        ensures error { KeepsUnlessFailed (error self.old) (error self.new) result };

    /// The number of the system's error at the call that failed last, where it gave one (errno(3)).
    /// Only a call that fails changes it.
    fn last_error(&self) -> Option<Errno>
        ensures { result ≡ error self.now };

    /// Whether it did so for want of room.
    fn is_full(&self) -> bool
        ensures { result ≡ is_want_of_room (error self.now) }
    {
        is_want_of_room(self.last_error())
    }

    /// The number of changing calls so far.
    fn moment(&self) -> u64
        ensures { result ≡ (history self.now).moment };

    /// At each moment, a disk as it read is what a crash may have left.
    ghost as_it_read: { (disk : Self) (t : ℕ) → IsTrue (honest disk) → t ≤ (history disk).moment
        → (history disk).leaves t ((history disk).seen t) };
}
