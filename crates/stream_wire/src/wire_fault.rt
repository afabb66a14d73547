ghost use Rattle.std.specs.Prelude.{◌≡◌};
ghost use Rattle.stream_wire.specs.declared.wire_fault.WireFault.TheVariants as wire_fault;

use lf_base::NoMemory;

/// Why bytes are no frame, or no head. The one that stands first is answered.
#[derive(Clone, Copy, Debug, PartialEq, Eq)]
pub enum WireFault {
    /// No head, whatever bytes follow.
    Head,
    /// A Ready whose body has not 16 bytes, or an End or a Drop with a body.
    Length,
    /// No kind has this number.
    Kind { kind: u32 },
    /// The name's length, or the name, is not that of a database; or an End with a name.
    NameText,
    /// The body would have `len` bytes, more than are allowed.
    TooLong { len: u64 },
    /// Memory ran out.
    NoMemory,
}

impl From<NoMemory> for WireFault {
    ghost from_gives = { λ _ fault. fault ≡ wire_fault.NoMemory };

    fn from(_: NoMemory) -> WireFault {
        WireFault::NoMemory
    }
}
