use crate::files::Files;
use crate::info::NodeInfo;
use crate::refusal::Refusal;
use crate::whereabouts::Whereabouts;
use byte_locks::LockId;
use fuse_msgs::Reply;
use halt_forward::HaltPass;
use lf_base::{Bytes, Errno, Pos};

/// What a node answers.
#[derive(Debug, Drop)]
pub enum Answer {
    /// The request is done, and this is its reply.
    Done(Reply),
    /// It is done, and has no reply.
    Quiet,
    /// It is refused with this number, and nothing is changed.
    Refuse(Errno),
    /// It stands here.
    At(Whereabouts),
    /// The follower needs nothing. The node stands here.
    Level(Pos),
    /// The follower needs this LTX file, and is then at this position.
    Item { ltx: Bytes, after: Pos },
    /// The database was dropped.
    Gone,
    /// It is applied, and the node stands here.
    Applied(Pos),
    /// The database is this one already, and nothing is changed. The node stands here.
    Same(Pos),
    /// A lock that somebody holds holds it back, and nothing is changed.
    Held(LockId),
    /// So many files are gone from the log.
    Pruned(u64),
    /// The database's bytes: its pages one after another.
    Bytes(Bytes),
    /// What the node is, and where it stands.
    Info(NodeInfo),
    /// The same, with the files of its log from the first that follows a position on.
    Watched { info: NodeInfo, files: Files },
    /// This LTX file is to be sent to the primary, under the write permit of this number. The request
    /// waits for the reply.
    Send { number: u64, ltx: Bytes },
    /// This write permit is given out.
    Pass(HaltPass),
    /// It is refused.
    Refused(Refusal),
}
