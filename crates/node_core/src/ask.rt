ghost use Rattle.std.specs.Prelude.{◌≡◌};
ghost use Rattle.node_core.specs.Moments.{ask_at};

use crate::news::LeaseNews;
use fuse_msgs::Request;
use halt_forward::HaltPass;
use lf_base::{Bytes, Pos};
use txn_log::LastFile;

/// What a node is asked. Each moment is in milliseconds since the Unix epoch.
#[derive(Debug, Drop)]
pub enum Ask {
    /// A request on the served files, at this moment.
    File {
        now: u64,
        request: Request,
    },
    /// The caller's session ended: its handles, its locks and its uncommitted pages go.
    EndSession,
    /// Where does the node stand?
    Where,
    /// What is owed to a follower at this position, which says this of the last file of its log?
    Hello {
        now: u64,
        pos: Pos,
        last: Option<LastFile>,
    },
    /// An LTX file of another node is to be applied, or installed where it begins with transaction 1.
    Frame {
        now: u64,
        bytes: Bytes,
    },
    /// The database was dropped at another node.
    Drop {
        now: u64,
    },
    /// What are the database's bytes?
    Export,
    /// This database is to take the place of the primary's, as one transaction.
    Import {
        now: u64,
        bytes: Bytes,
    },
    /// The log is to keep this many files, its newest. 0 stands for 1.
    Prune {
        keep: u64,
    },
    /// What is the node, and where does it stand?
    Info {
        now: u64,
    },
    /// What is the node, and which files of its log lie behind this position?
    Watch {
        now: u64,
        pos: Pos,
    },
    /// News of leases came.
    Lease {
        now: u64,
        news: LeaseNews,
    },
    /// The node of this number wants a write permit of the primary.
    HaltAsk {
        now: u64,
        node: u64,
    },
    /// The write permit of this number is given back to the primary.
    HaltBack {
        now: u64,
        number: u64,
    },
    /// This LTX file is a transaction that a node made under the write permit of this number.
    Forward {
        now: u64,
        number: u64,
        bytes: Bytes,
    },
    /// This write permit came from the primary.
    HaltGot {
        now: u64,
        pass: HaltPass,
    },
    /// The write permit of this number is gone.
    HaltLost {
        number: u64,
    },
    /// The primary answered the commit that was sent: it is committed there, or not.
    Forwarded {
        ok: bool,
    },
}

impl Ask {
    /// Makes it the same ask at this moment.
    pub fn set_moment(&mut self, moment: u64)
        ensures { self.new ≡ ask_at moment self.old }
    {
        match self {
            Ask::File { now, .. } => *now = moment,
            Ask::Hello { now, .. } => *now = moment,
            Ask::Frame { now, .. } => *now = moment,
            Ask::Drop { now } => *now = moment,
            Ask::Import { now, .. } => *now = moment,
            Ask::Info { now } => *now = moment,
            Ask::Watch { now, .. } => *now = moment,
            Ask::Lease { now, .. } => *now = moment,
            Ask::HaltAsk { now, .. } => *now = moment,
            Ask::HaltBack { now, .. } => *now = moment,
            Ask::Forward { now, .. } => *now = moment,
            Ask::HaltGot { now, .. } => *now = moment,
            Ask::EndSession
            | Ask::Where
            | Ask::Export
            | Ask::Prune { .. }
            | Ask::HaltLost { .. }
            | Ask::Forwarded { .. } => {}
        }
    }
}
