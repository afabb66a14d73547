ghost use Rattle.std.specs.Prelude.{List, ℕ, Option};
ghost use Rattle.std.specs.Io.{ReadsAtMost};
ghost use Rattle.std.specs.Io.KnownBytes.{ReadConsumes};
ghost use Rattle.lf_base.specs.Faults.{CountsFaults};

/// A fault of the outside.
#[derive(Clone, Copy, Debug, PartialEq, Eq)]
pub struct Failed;

/// Where bytes come from.
pub trait Source {
    /// The bytes that are left, where it tells them.
    ghost left: { Self → Option (List ℕ) };

    /// How often it has failed.
    ghost faults: { Self → ℕ };

    /// Puts the next bytes in front of `out` and answers how many; 0 for an `out` that has room is
    /// the end. After `Failed` the bytes left are as before.
    fn read(&mut self, out: &mut [u8]) -> Result<usize, Failed>
        ensures count { ReadsAtMost result out.new }
        ensures bytes { ReadConsumes (left self.old) (left self.new) result out.new }
        ensures cause { CountsFaults (faults self.old) (faults self.new) result };
}
