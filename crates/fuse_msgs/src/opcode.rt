//! The opcodes that are served.

ghost use Rattle.std.specs.Prelude.{◌≡◌};
ghost use Rattle.fuse_msgs.specs.Opcodes.{opcode_named};

/// An opcode of fuse.h's `enum fuse_opcode`.
#[derive(Clone, Copy, Debug, PartialEq, Eq)]
pub enum Opcode {
    Lookup,
    Forget,
    Getattr,
    Setattr,
    Unlink,
    Open,
    Read,
    Write,
    Release,
    Fsync,
    Flush,
    Init,
    Getlk,
    Setlk,
    Setlkw,
    Create,
    Destroy,
}

/// The opcode of this number, if it is served.
pub fn opcode_of(number: u32) -> Option<Opcode>
    ensures { result ≡ opcode_named number }
{
    match number {
        1 => Some(Opcode::Lookup),
        2 => Some(Opcode::Forget),
        3 => Some(Opcode::Getattr),
        4 => Some(Opcode::Setattr),
        10 => Some(Opcode::Unlink),
        14 => Some(Opcode::Open),
        15 => Some(Opcode::Read),
        16 => Some(Opcode::Write),
        18 => Some(Opcode::Release),
        20 => Some(Opcode::Fsync),
        25 => Some(Opcode::Flush),
        26 => Some(Opcode::Init),
        31 => Some(Opcode::Getlk),
        32 => Some(Opcode::Setlk),
        33 => Some(Opcode::Setlkw),
        35 => Some(Opcode::Create),
        38 => Some(Opcode::Destroy),
        _ => None,
    }
}
