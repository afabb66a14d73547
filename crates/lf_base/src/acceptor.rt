ghost use Rattle.std.specs.Prelude.{◌≡◌, ℕ, Bool, true, IfOk, IsNone, is_none, MatchResult};
ghost use Rattle.lf_base.specs.Faults.{CountsFaults};
ghost use Rattle.lf_base.specs.Doors.{CountsLinks};

use crate::handles::Handles;
use crate::link::Link;
use crate::source::Failed;

/// Where links come from.
pub trait Acceptor {
    type L: Link + Send + Drop + 'static;

    /// How often it has failed.
    ghost faults: { Self → ℕ };

    /// Whether it has said that no more links come.
    ghost ended: { Self → Bool };

    /// How many links it has given; it stays at the last number of a u64.
    ghost given: { Self → ℕ };

    /// The next link; `None` says that no more come.
    fn accept<R: Handles>(&mut self, rt: &R) -> Result<Option<Self::L>, Failed>
        ensures ended { MatchResult result (λ link. ended self.new ≡ is_none link) (λ _. ended self.new ≡ ended self.old) }
        ensures last { ended self.old ≡ true → IfOk result IsNone }
        ensures given { CountsLinks (given self.old) (given self.new) result }
        ensures cause { CountsFaults (faults self.old) (faults self.new) result };
}
