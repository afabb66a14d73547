//! The flags of a message, and the sizes of bodies.

ghost use Rattle.std.specs.Prelude.{◌≡◌, ◌<◌, ◌≢◌, length, OnOk, OnErr, IsErrOf};
ghost use Rattle.fuse_msgs.specs.Fields.{is_set, given};

use crate::fault::BodyFault;

/// Whether this bit of the flags is set, the lowest being 0.
#[tactic(auto, unfolding(crate::specs::Fields::is_set))]
pub fn is_set(flags: u32, bit: u32) -> bool
    requires { bit < 32 }
    ensures { result ≡ is_set flags bit }
{
    flags >> bit & 1 == 1
}

/// The number, where this bit of the flags says that it is given.
pub fn given(flags: u32, bit: u32, number: u64) -> Option<u64>
    requires { bit < 32 }
    ensures { result ≡ given (is_set flags bit) number }
{
    if is_set(flags, bit) {
        Some(number)
    } else {
        None
    }
}

/// Tests that a body has this size.
pub fn sized(body: &[u8], size: usize) -> Result<(), BodyFault>
    ensures ok { OnOk result (length body.now ≡ size) }
    ensures err { OnErr result (length body.now ≢ size) }
    ensures fault { OnErr result (IsErrOf result BodyFault.Shape) }
{
    if body.len() != size {
        return Err(BodyFault::Shape);
    }
    Ok(())
}
