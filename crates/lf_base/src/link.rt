ghost use Rattle.std.specs.Prelude.{◌<◌, List, ℕ, Option, length, IfOk};
ghost use Rattle.std.specs.Io.{ReadsAtMost, WritesAtMost};
ghost use Rattle.std.specs.Io.KnownBytes.{ReadConsumes, WriteAppends, Keeps};
ghost use Rattle.lf_base.specs.Faults.{CountsFaults};
ghost use Rattle.lf_base.specs.Moves.{CountsMoves};

use crate::source::Failed;
use std::net::SocketAddr;

/// Two ways of bytes, with one count of faults.
pub trait Link {
    /// The bytes that are left to read, where it tells them.
    ghost left: { Self → Option (List ℕ) };

    /// The bytes that it has given, where it tells them.
    ghost given: { Self → Option (List ℕ) };

    /// The bytes that it took, where it tells them.
    ghost taken: { Self → Option (List ℕ) };

    /// How often it has failed.
    ghost faults: { Self → ℕ };

    /// How many of its calls moved bytes.
    ghost moves: { Self → ℕ };

    /// Puts the next bytes in front of `out` and answers how many; 0 for an `out` that has room is
    /// the end. After `Failed` the bytes left are as before.
    fn read(&mut self, out: &mut [u8]) -> Result<usize, Failed>
        ensures count { ReadsAtMost result out.new }
        ensures bytes { ReadConsumes (left self.old) (left self.new) result out.new }
        ensures given { WriteAppends (given self.old) (given self.new) result out.new }
        ensures taken { Keeps (taken self.old) (taken self.new) }
        ensures moves { CountsMoves (moves self.old) (moves self.new) result }
        ensures cause { CountsFaults (faults self.old) (faults self.new) result };

    /// Takes the first bytes of the piece and answers how many, at least one of a piece that has
    /// any. After `Failed` nothing was taken.
    fn write(&mut self, piece: &[u8]) -> Result<usize, Failed>
        ensures count { WritesAtMost result piece.now × IfOk result (λ n. 0 < length piece.now → 0 < n) }
        ensures bytes { WriteAppends (taken self.old) (taken self.new) result piece.now }
        ensures left { Keeps (left self.old) (left self.new) }
        ensures given { Keeps (given self.old) (given self.new) }
        ensures moves { CountsMoves (moves self.old) (moves self.new) result }
        ensures cause { CountsFaults (faults self.old) (faults self.new) result };

    /// Who is at its other end, where that is known. Nothing is told of it.
    fn peer(&self) -> Option<SocketAddr> {
        None
    }
}
