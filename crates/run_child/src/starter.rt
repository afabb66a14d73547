ghost use Rattle.std.specs.Prelude.{List, ℕ, Option, MatchResult, ⊤};
ghost use Rattle.lf_base.specs.Faults.{CountsFaults};
ghost use Rattle.run_child.specs.Started.{Started, TellsOne, TellsSame};

use lf_base::{Failed, Link, Text};
use std::process::Processes;

/// What starts programs.
pub trait Starter {
    /// The programs that it started, each with its words and what it gave, where it tells them.
    ghost starts: { Self → Option (List Started) };

    /// How often it has failed.
    ghost faults: { Self → ℕ };

    /// Whether it may be asked to start a program, by the bytes that a link has taken.
    ghost may_start: { Self → Option (List ℕ) → Type 0 } = { λ _ _. ⊤ };

    /// Starts the program that the first word names, with the words behind it, waits for its end and
    /// gives its exit status; 255 where a signal ended it. The link is lent to say when it may be asked.
    fn start<R: Processes, L: Link>(
        &mut self,
        rt: &R,
        link: &L,
        words: &[Text],
    ) -> Result<u8, Failed>
        requires { may_start self.old (L.taken link.now) }
        ensures told { MatchResult result (λ n. TellsOne (starts self.old) (starts self.new) (record { words = words.now; gave = n })) (λ _. TellsSame (starts self.old) (starts self.new)) }
        ensures cause { CountsFaults (faults self.old) (faults self.new) result };
}

/// A starter that may always be asked. What runs a program by any such starter owes nothing for it.
pub trait ReadyStarter: Starter {
    ghost ready: { (starter : Self) (taken : Option (List ℕ)) → Self.may_start starter taken };
}
