ghost use Rattle.std.specs.Prelude.{◌≡◌};
ghost use Rattle.node_core.specs.Waiting.{has_sent, overtaken};

use fuse_msgs::Reply;
use ltx_codec::Ltx;

/// A commit that was sent to the primary, and waits for its reply.
#[derive(Drop)]
pub struct Sent {
    /// The session whose request it is.
    pub caller: u64,
    /// What the request is answered once it is committed.
    pub reply: Reply,
    /// The file that was sent. It is of one transaction.
    pub file: Ltx,
    /// Whether the committed image has become another one since.
    pub overtaken: bool,
}

/// Whether it is a commit of this session that was sent.
pub(crate) fn has_sent(sent: &Option<Sent>, caller: u64) -> bool
    ensures { result ≡ has_sent sent.now caller }
{
    match sent {
        Some(sent) => sent.caller == caller,
        None => false,
    }
}

/// The committed image is another one now.
pub(crate) fn overtake(sent: &mut Option<Sent>)
    ensures { sent.new ≡ overtaken sent.old }
{
    if let Some(sent) = sent {
        sent.overtaken = true;
    }
}
