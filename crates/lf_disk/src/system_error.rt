//! The system's errors at a call of a disk.
ghost use Rattle.std.specs.Prelude.{◌≡◌};
ghost use Rattle.lf_disk.specs.SystemError.{is_want_of_room};

use lf_base::Errno;

/// The device has no room.
pub const ENOSPC: Errno = Errno(28);

/// The user's share of the device has no room.
const EDQUOT: Errno = Errno(122);

/// Whether the system said that there is no room.
pub fn is_want_of_room(error: Option<Errno>) -> bool
    ensures { result ≡ is_want_of_room error }
{
    match error {
        Some(number) => number == ENOSPC || number == EDQUOT,
        None => false,
    }
}
