ghost use Rattle.std.specs.Prelude.{◌≡◌};
ghost use Rattle.lease_core.specs.declared.lease_fault.LeaseFault.TheVariants as lease_fault;

use lf_base::NoMemory;

/// Why the table refused. But for its moment it is then as before.
#[derive(Clone, Copy, Debug, PartialEq, Eq)]
pub enum LeaseFault {
    /// Another node's grant ends after the table's moment.
    Held { by: u64, until: u64 },
    /// That term was never this node's.
    Unknown,
    /// That term has ended, at `until`.
    Late { until: u64 },
    /// The end of the grant, or its term, would pass 2^64 - 1.
    Limit,
    /// Memory ran out.
    NoMemory,
}

impl From<NoMemory> for LeaseFault {
    ghost from_gives = { λ _ fault. fault ≡ lease_fault.NoMemory };

    fn from(_: NoMemory) -> LeaseFault {
        LeaseFault::NoMemory
    }
}
