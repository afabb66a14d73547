//! What becomes of a request.
ghost use Rattle.std.specs.Prelude.{◌≡◌};
ghost use Rattle.conversations.specs.Outcomes.{number_of, without_commit, refused};

use file_view::ViewFault;
use fuse_msgs::Reply;
use lf_base::Errno;
use lf_sqlite_pages::Change;

/// The reply to a request, if it has one, and the complete change that it committed, if it did.
#[derive(Drop)]
pub struct Outcome {
    pub reply: Option<Reply>,
    pub change: Option<Change>,
}

impl Outcome {
    /// A request that committed nothing.
    pub fn without_commit(reply: Option<Reply>) -> Outcome
        ensures { result ≡ without_commit reply }
    {
        Outcome {
            reply,
            change: None,
        }
    }

    /// A request that was refused.
    pub fn refused(fault: ViewFault) -> Outcome
        ensures { result ≡ refused fault }
    {
        Outcome::without_commit(Some(Reply::Error(number_of(fault))))
    }
}

/// The error number of a refusal.
fn number_of(fault: ViewFault) -> Errno
    ensures { result ≡ number_of fault }
{
    match fault {
        ViewFault::Errno(errno) => errno,
        ViewFault::Page(_) => Errno(5),
        ViewFault::NoMemory => Errno(12),
    }
}
