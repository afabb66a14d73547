//! What a session's end is to an exchange, and inside a message.
ghost use Rattle.std.specs.Prelude.{◌≡◌};
ghost use Rattle.http_exchange.specs.Exchange.{at_end, untold_by};
ghost use Rattle.http_exchange.specs.Reading.{inside};

use crate::told::Untold;
use lf_base::SessionEnd;

/// Why nothing is told where a session ends so.
pub fn untold_by(end: SessionEnd) -> Untold
    ensures { result ≡ untold_by end }
{
    match end {
        SessionEnd::Closed | SessionEnd::BadMessage => Untold::Unfit,
        SessionEnd::ReadFault | SessionEnd::WriteFault => Untold::Fault,
        SessionEnd::Turns => Untold::Turns,
        SessionEnd::Worn | SessionEnd::NoMemory => Untold::NoMemory,
    }
}

/// How bytes that end with the input have ended.
pub fn at_end(end: SessionEnd) -> Result<(), Untold>
    ensures { result ≡ at_end end }
{
    match end {
        SessionEnd::Closed => Ok(()),
        _ => Err(untold_by(end)),
    }
}

/// The end where the input ends inside a message.
pub(crate) fn inside(end: SessionEnd) -> SessionEnd
    ensures { result ≡ inside end }
{
    match end {
        SessionEnd::Closed => SessionEnd::BadMessage,
        _ => end,
    }
}
