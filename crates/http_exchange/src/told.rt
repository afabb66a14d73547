use lf_base::Bytes;

/// A reply that was read whole.
#[derive(Debug, Drop)]
pub struct Told {
    pub status: u16,
    pub body: Bytes,
}

/// Why no reply was read whole.
#[derive(Clone, Copy, Debug, PartialEq, Eq)]
pub enum Untold {
    /// The dial failed, or the link did: the dialer's count of faults rose.
    Fault,
    /// The bytes begin no head that is taken, or end inside the reply; or a length is wanted, and the
    /// head says none.
    Unfit,
    /// The body is longer than the limit.
    TooLong,
    /// No turn was left.
    Turns,
    NoMemory,
}
