use lf_base::Failed;
use txn_log::StoreFault;

/// Why a snapshot was not written whole.
#[derive(Clone, Copy, Debug, PartialEq, Eq)]
pub enum IntoFault {
    /// The sink failed.
    Sink,
    /// The disk failed, or the store is broken.
    Store(StoreFault),
}

/// Why the bytes of a database do not become a change. In this order.
#[derive(Clone, Copy, Debug, PartialEq, Eq)]
pub enum ImportFault {
    /// The bytes are not at least one page, a whole number of pages of the size that their own first
    /// page gives.
    NotDatabase,
    /// A database of these pages would be too large.
    Limit,
    /// A read of the store failed, or the store is broken.
    Store(Failed),
    NoMemory,
}
