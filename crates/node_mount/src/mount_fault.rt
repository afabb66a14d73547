/// Why a node, or a lease service, does not start, or stops serving.
#[derive(Clone, Copy, Debug, PartialEq, Eq)]
pub enum MountFault {
    /// The configuration was not read whole: its source failed.
    Read,
    /// The configuration is none.
    Config,
    /// The data directory is no store's.
    Damaged,
    /// The disk failed.
    Disk,
    /// An acceptor failed, or could not be made.
    Network,
    /// No thread was to be had.
    NoThread,
    /// 2^40 links were accepted.
    Limit,
    NoMemory,
}
