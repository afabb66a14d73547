ghost use Rattle.std.specs.Prelude.{◌≡◌};
ghost use Rattle.lease_core.specs.declared.body_fault.BodyFault.TheVariants as body_fault;

use lf_base::NoMemory;

/// Why bytes are no body.
#[derive(Clone, Copy, Debug, PartialEq, Eq)]
pub enum BodyFault {
    /// They are no JSON, or it is nested deeper than 127, or has a number past a float's range.
    Syntax,
    /// They are JSON of another shape.
    Shape,
    /// Memory ran out.
    NoMemory,
}

impl From<NoMemory> for BodyFault {
    ghost from_gives = { λ _ fault. fault ≡ body_fault.NoMemory };

    fn from(_: NoMemory) -> BodyFault {
        BodyFault::NoMemory
    }
}
