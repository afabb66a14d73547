use lf_base::Pos;
use txn_log::LastFile;

/// Where a node stands.
#[derive(Clone, Copy, Debug, PartialEq, Eq)]
pub struct Whereabouts {
    pub pos: Pos,
    /// The last file of its log, where it has one.
    pub last: Option<LastFile>,
}
