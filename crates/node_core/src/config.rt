use lf_base::{Name, Text};

/// What a node is given of itself when it is opened.
#[derive(Drop)]
pub struct NodeConfig {
    /// The name of the database.
    pub name: Name,
    /// The node's own number, which its files of the log carry.
    pub node: u64,
    /// Whether it is the primary from the start, until news of a lease say otherwise.
    pub candidate: bool,
    /// What `.primary` reads as at a replica. An empty text is none.
    pub primary_host: Text,
    /// For how many milliseconds a write permit is given.
    pub halt_ttl: u64,
    /// How many files of the log are kept after a commit. 0 stands for 1.
    pub retention: u64,
}
