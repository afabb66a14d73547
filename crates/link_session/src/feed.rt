ghost use Rattle.std.specs.Prelude.{◌≡◌, ◌≢◌, ◌++◌, [], List, ℕ, Bool, IfOk, IfErr, MatchBool};
ghost use Rattle.link_session.specs.declared.stage.Stage.{Stage};
ghost use Rattle.link_session.specs.declared.stage.Stage.TheVariants as stages;
ghost use Rattle.link_session.specs.Reading.{Took, Faulted};

use crate::stage::Stage;

/// Why a piece was not taken.
#[derive(Clone, Copy, Debug, PartialEq, Eq)]
pub enum FeedFault {
    /// No message begins so, whatever bytes follow.
    Broken,
    NoMemory,
}

/// What gathers the bytes of one message after another.
pub trait Feed {
    /// What a whole message is taken out as, where it is not read in place.
    type Message;

    /// The most that a message may have, where whoever made the feed said so.
    ghost limit: { Self → ℕ };

    /// The bytes of the message that is coming, or is whole.
    ghost held: { Self → List ℕ };

    ghost stage: { Self → Stage };

    /// A whole message and no more, under that limit.
    ghost message: { ℕ → List ℕ → Type 0 };

    /// Less than a message: it may go on as one.
    ghost partial: { ℕ → List ℕ → Type 0 };

    /// Whether taking a piece takes memory.
    ghost takes_memory: { Bool };

    /// What is taken out stands for the message.
    ghost stands_for: { Self.Message → List ℕ → Type 0 };

    /// What no message begins.
    ghost broken: { ℕ → List ℕ → Type 0 };

    /// Takes a piece up to the end of a message, and answers how many bytes those are; `None` takes
    /// all, and no message is whole.
    fn take(&mut self, piece: &[u8]) -> Result<Option<usize>, FeedFault>
        requires { stage self.old ≡ stages.Open }
        ensures took { IfOk result (Took (message (limit self.old)) (partial (limit self.old)) (held self.old) piece.now (held self.new) (stage self.new)) }
        ensures fault { IfErr result (Faulted takes_memory (broken (limit self.old)) (held self.old ++ piece.now)) }
        ensures limit { limit self.new ≡ limit self.old };

    /// Takes out the message that is whole, and begins the next.
    fn next(&mut self) -> Self::Message
        requires { stage self.old ≡ stages.Whole }
        ensures message { stands_for result (held self.old) }
        ensures empty { held self.new ≡ [] }
        ensures open { stage self.new ≡ stages.Open }
        ensures limit { limit self.new ≡ limit self.old };

    /// Whether nothing of a message is held.
    fn is_between(&self) -> bool
        requires { stage self.now ≡ stages.Open }
        ensures { MatchBool result (held self.now ≡ []) (held self.now ≢ []) };

    /// What begins no message begins none with more bytes behind it.
    ghost lasts: { (limit : ℕ) (text more : List ℕ) → broken limit text → broken limit (text ++ more) };
}
