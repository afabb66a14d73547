ghost use Rattle.std.specs.Prelude.{◌≡◌, ◌==◌, ℕ, Option, List, IfOk, MatchResult, MatchBool};
ghost use Rattle.lf_base.specs.Faults.{CountsFaults, Rose};
ghost use Rattle.lf_base.specs.Dials.{Dial, TellsSame, TellsMore, TellsNone, IsFailed, IsHungUp};

use crate::handles::Handles;
use crate::link::Link;
use crate::source::Failed;
use crate::text::Text;

/// What links are opened by.
pub trait Dialer {
    /// That a link can go to another thread is said where a job is started.
    type L: Link + Drop;

    /// How often it, or a link that it took back, has failed.
    ghost faults: { Self → ℕ };

    /// Its dials, each as it was hung up or failed, in that order, where it tells them.
    ghost dials: { Self → Option (List Dial) };

    /// A new link to this address, as `host:port`.
    fn dial<R: Handles>(&mut self, rt: &R, address: &Text) -> Result<Self::L, Failed>
        ensures begins { IfOk result (λ link. Self.L.faults link ≡ 0) }
        ensures new { IfOk result (λ link. TellsNone (Self.L.given link) × TellsNone (Self.L.taken link)) }
        ensures dials { MatchResult result (λ _. TellsSame (dials self.old) (dials self.new)) (λ _. TellsMore IsFailed (dials self.old) (dials self.new)) }
        ensures cause { CountsFaults (faults self.old) (faults self.new) result };

    /// Takes a link back. The dialer's count rises exactly where the link's is not 0.
    fn hang_up(&mut self, link: Self::L)
        ensures dials { TellsMore (IsHungUp (Self.L.given link) (Self.L.taken link) (Self.L.left link) (Self.L.faults link)) (dials self.old) (dials self.new) }
        ensures cause { MatchBool (Self.L.faults link == 0) (faults self.new ≡ faults self.old) (Rose (faults self.old) (faults self.new)) };

    /// A dialer of the same kind, which has not dialed and not failed. It takes no memory.
    fn another(&self) -> Self
        ensures faults { faults result ≡ 0 }
        ensures dials { TellsNone (dials result) };
}
