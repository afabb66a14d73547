/// Why a request is not passed on.
#[derive(Clone, Copy, Debug, PartialEq, Eq)]
pub(crate) enum Denial {
    /// It writes, and the node takes no writes.
    NotPrimary,
    /// The node has not yet the transaction that the client has seen.
    Behind,
}
