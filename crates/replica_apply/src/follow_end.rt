use node_core::Refusal;

/// How following a stream ends.
#[derive(Clone, Copy, Debug, PartialEq, Eq)]
pub enum FollowEnd {
    /// By an End: the other node is no primary any longer.
    Ended,
    /// The input ended before an End.
    Cut,
    /// The link's count of faults rose at a read.
    ReadFault,
    /// The link's count of faults rose at a write.
    WriteFault,
    /// The reply's head does not read, or the next frame does not, or is of another database.
    BadFrame,
    /// The reply has this status, which is not 200.
    Status(u16),
    /// The node refused what it was asked last.
    Refused(Refusal),
    /// The turns are used up.
    Turns,
    /// The desk has no turn left.
    Worn,
    /// The node gave an answer that is none to what it was asked.
    OddAnswer,
    /// Memory ran out.
    NoMemory,
}
