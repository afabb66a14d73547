ghost use Rattle.std.specs.Prelude.{◌≡◌, ℕ, Bool};

/// How an ask is made again: at another moment, and for which answers.
pub trait Patience {
    type Ask;

    type Answer;

    /// The same ask at a moment, as milliseconds.
    ghost at_moment: { ℕ → Self.Ask → Self.Ask };

    ghost again: { Self → Self.Answer → Bool };

    fn set_moment(&self, ask: &mut Self::Ask, now: u64)
        ensures { ask.new ≡ at_moment now ask.old };

    fn is_again(&self, answer: &Self::Answer) -> bool
        ensures { result ≡ again self.now answer.now };

    /// An ask's last moment stands.
    ghost last_stands: { (first last : ℕ) (ask : Self.Ask) → at_moment last (at_moment first ask) ≡ at_moment last ask };
}
