//! What a desk steps.
ghost use Rattle.std.specs.Prelude.{ℕ};

/// A sequential machine: it answers asks, one at a time.
pub trait Machine {
    type Ask;

    type Answer;

    // From the state before, by the caller's number and ask, with the answer, to the state after.
    ghost steps: { Self → ℕ → Self.Ask → Self.Answer → Self → Type 0 };

    /// One step, for the caller of this number.
    fn step(&mut self, caller: u64, ask: &Self::Ask) -> Self::Answer
        ensures { steps self.old caller ask.now result self.new };

    /// A number that is another one where who rests beside the desk should look again. Nothing is told of it.
    fn news(&self) -> u64;
}
