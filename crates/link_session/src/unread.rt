ghost use Rattle.std.specs.Prelude.{◌≡◌};
ghost use Rattle.link_session.specs.Unread.{end_of};

use lf_base::SessionEnd;

/// Why no message could be read.
#[derive(Clone, Copy, Debug, PartialEq, Eq)]
pub enum Unread {
    /// The input ended between two messages.
    Ended,
    /// The input ended inside a message.
    Cut,
    /// The input begins no message.
    Broken,
    /// The link's count of faults rose.
    ReadFault,
    /// No turn was left.
    Turns,
    NoMemory,
}

impl Unread {
    /// The end of a session whose next message could not be read.
    pub fn end(self) -> SessionEnd
        ensures { result ≡ end_of self }
    {
        match self {
            Unread::Ended => SessionEnd::Closed,
            Unread::Cut | Unread::Broken => SessionEnd::BadMessage,
            Unread::ReadFault => SessionEnd::ReadFault,
            Unread::Turns => SessionEnd::Turns,
            Unread::NoMemory => SessionEnd::NoMemory,
        }
    }
}
