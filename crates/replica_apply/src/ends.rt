//! The ends of calls below as ends of following.
ghost use Rattle.std.specs.Prelude.{◌≡◌};
ghost use Rattle.replica_apply.specs.Following.{end_of, unsent_by};

use crate::follow_end::FollowEnd;
use lf_base::SessionEnd;
use link_session::Unread;

/// The end where a message could not be read.
pub fn end_of(why: Unread) -> FollowEnd
    ensures { result ≡ end_of why }
{
    match why {
        Unread::Ended | Unread::Cut => FollowEnd::Cut,
        Unread::Broken => FollowEnd::BadFrame,
        Unread::ReadFault => FollowEnd::ReadFault,
        Unread::Turns => FollowEnd::Turns,
        Unread::NoMemory => FollowEnd::NoMemory,
    }
}

/// The end where the request was not written.
pub fn unsent_by(end: SessionEnd) -> FollowEnd
    ensures { result ≡ unsent_by end }
{
    match end {
        SessionEnd::WriteFault => FollowEnd::WriteFault,
        SessionEnd::Turns => FollowEnd::Turns,
        SessionEnd::Closed
        | SessionEnd::ReadFault
        | SessionEnd::BadMessage
        | SessionEnd::Worn
        | SessionEnd::NoMemory => FollowEnd::NoMemory,
    }
}
