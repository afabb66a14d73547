/// The key that a node has put.
#[derive(Clone, Copy, Debug, PartialEq, Eq)]
pub struct Held {
    /// Its creation revision, which is the term.
    pub term: u64,
    pub lease: u64,
    /// The moment from which on it stands for a lease: what another node believed before has ended then.
    pub from: u64,
}
