//! Why bytes are no request.

ghost use Rattle.std.specs.Prelude.{◌≡◌};
ghost use Rattle.fuse_msgs.specs.declared.fault.BodyFault.TheVariants as body;

use std::alloc::{AllocError, AllocFailed};

/// The first fault of the bytes, in this order. Each but `NoMemory` has its cause in the bytes alone.
#[derive(Clone, Copy, Debug, PartialEq, Eq)]
pub enum BadMessage {
    /// Fewer bytes than a header has.
    Short,
    /// The length field isn't the number of bytes, or is out of bounds.
    Length { len: u32 },
    /// An opcode that isn't served.
    Opcode { opcode: u32, unique: u64 },
    /// The body isn't of its size, or has a type of lock that there isn't.
    Body { unique: u64 },
    /// A name isn't 1 to 80 bytes ended by its only zero byte.
    NameText { unique: u64 },
    /// Memory ran out.
    NoMemory,
}

/// Why a body isn't one of its opcode.
#[derive(Clone, Copy, Debug, PartialEq, Eq)]
pub enum BodyFault {
    /// It hasn't the size of its opcode, or a lock's type is none.
    Shape,
    /// Its name isn't one.
    Name,
    /// Memory ran out.
    Memory,
}

impl From<AllocError> for BodyFault {
    ghost from_gives = { λ _ e. e ≡ body.Memory };

    fn from(_error: AllocError) -> BodyFault {
        BodyFault::Memory
    }
}
