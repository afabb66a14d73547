//! The numbers of the opcodes, as fuse.h's `enum fuse_opcode` has them.

ghost use Rattle.std.specs.Prelude.{◌≡◌};
ghost use Rattle.fuse_msgs.specs.Opcodes.{number_of, opcode_of};

use fuse_msgs::Op;

pub fn opcode_number(op: &Op) -> u32
    ensures { result ≡ number_of (opcode_of op.now) }
{
    match op {
        Op::Lookup { .. } => 1,
        Op::Forget => 2,
        Op::Getattr => 3,
        Op::Setattr { .. } => 4,
        Op::Unlink { .. } => 10,
        Op::Open => 14,
        Op::Read { .. } => 15,
        Op::Write { .. } => 16,
        Op::Release { .. } => 18,
        Op::Fsync { .. } => 20,
        Op::Flush { .. } => 25,
        Op::Init { .. } => 26,
        Op::Getlk { .. } => 31,
        Op::Setlk { .. } => 32,
        Op::Setlkw { .. } => 33,
        Op::Create { .. } => 35,
        Op::Destroy => 38,
    }
}
