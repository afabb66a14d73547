ghost use Rattle.std.specs.Prelude.{◌≡◌, ◌++◌, [], ◌∷◌, List, ℕ, IfOk, OnErr};
ghost use Rattle.turn_desk.specs.declared.history.Entry.{Entry};
ghost use Rattle.turn_desk.specs.History.{entry};

use turn_desk::Worn;

/// One that asks a machine for steps, and knows which of them were its own.
pub trait Steps {
    type Ask;

    type Answer;

    /// What tells one of the outside from another.
    type Outside;

    /// Its own asks with their answers, in order.
    ghost entries: { Self → List (Entry Self.Ask Self.Answer) };

    /// The number by which it asks.
    ghost number: { Self → ℕ };

    /// Which of the outside it stands for.
    ghost of: { Self → Self.Outside };

    /// The history of which its own asks are a part begins so, and the machine can have made its steps.
    ghost goes_on: { Self → List (Entry Self.Ask Self.Answer) → Type 0 };

    /// No further step can be taken.
    ghost is_worn: { Self → Type 0 };

    /// The machine may give this answer to this ask.
    ghost gives: { Self.Ask → Self.Answer → Type 0 };

    fn ask(&mut self, ask: &Self::Ask) -> Result<Self::Answer, Worn>
        ensures entry { IfOk result (λ answer. entries self.new ≡ entries self.old ++ entry (number self.old) ask.now answer ∷ []) }
        ensures gives { IfOk result (λ answer. gives ask.now answer) }
        ensures on { (front : List (Entry Self.Ask Self.Answer)) → goes_on self.old front → goes_on self.new front }
        ensures same { (of self.new ≡ of self.old) × (number self.new ≡ number self.old) }
        ensures worn { OnErr result (is_worn self.new) }
        ensures still { OnErr result (entries self.new ≡ entries self.old) };
}
