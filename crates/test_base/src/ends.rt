//! How a session ended, in a word.
ghost use Rattle.std.specs.Prelude.{◌≡◌};
ghost use Rattle.test_base.specs.Ends.{end_name};

use lf_base::SessionEnd;

/// An end by its name.
pub fn end_name(ended: SessionEnd) -> &'static str
    ensures { result.now ≡ end_name ended }
{
    match ended {
        SessionEnd::Closed => "Closed",
        SessionEnd::ReadFault => "ReadFault",
        SessionEnd::WriteFault => "WriteFault",
        SessionEnd::BadMessage => "BadMessage",
        SessionEnd::Turns => "Turns",
        SessionEnd::Worn => "Worn",
        SessionEnd::NoMemory => "NoMemory",
    }
}
