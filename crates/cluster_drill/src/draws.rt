//! Numbers that the drill's number chooses.
ghost use Rattle.std.specs.Prelude.{◌≡◌, ◌<◌};
ghost use Rattle.cluster_drill.specs.Draws.{drawn, next_state};

/// A linear congruential generator.
#[derive(Clone, Copy)]
pub(crate) struct Draws {
    state: u64,
}

impl Draws {
    /// The generator of a number.
    pub(crate) fn new(number: u64) -> Draws
        ensures { result.state ≡ number }
    {
        Draws { state: number }
    }

    /// The next draw, below a bound.
    #[tactic(auto, unfolding(crate::specs::Draws::drawn, crate::specs::Draws::next_state))]
    pub(crate) fn below(&mut self, bound: u64) -> u64
        requires { 0 < bound }
        ensures next { self.new.state ≡ next_state self.old.state }
        ensures drawn { result ≡ drawn self.new.state bound }
        ensures below { result < bound }
    {
        self.state = self
            .state
            .wrapping_mul(6_364_136_223_846_793_005)
            .wrapping_add(1_442_695_040_888_963_407);
        (self.state >> 33) % bound
    }
}
