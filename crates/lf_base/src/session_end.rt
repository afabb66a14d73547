/// How a session with one peer ends.
#[derive(Clone, Copy, Debug, PartialEq, Eq)]
pub enum SessionEnd {
    /// The input ended between two messages, or the one reply was written.
    Closed,
    /// The link's count of faults rose at a read.
    ReadFault,
    /// The link's count of faults rose at a write.
    WriteFault,
    /// The bytes are no message, or the input ended inside one.
    BadMessage,
    /// The session's turns are used up.
    Turns,
    /// The desk has no turn left.
    Worn,
    NoMemory,
}
