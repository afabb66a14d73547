ghost use Rattle.std.specs.Prelude.{◌≡◌};
ghost use Rattle.stream_wire.specs.declared.call.Call.{Call};
ghost use Rattle.http_exchange.specs.declared.wants.Kept.{Kept};

use stream_wire::Call;

/// How much of a request's body is kept.
#[derive(Clone, Copy, Debug, PartialEq, Eq)]
pub enum Kept {
    /// Nothing: it is passed over.
    Nothing,
    /// A body of at most so many bytes; a longer one is passed over.
    Line(u64),
    /// A body of at most so many bytes; a longer one is not read.
    All(u64),
}

/// What is wanted of the body of a call.
pub trait Wants {
    ghost keeps: { Self → Call → Kept };

    fn keeps(&self, call: &Call) -> Kept
        ensures { result ≡ keeps self.now call.now };
}
