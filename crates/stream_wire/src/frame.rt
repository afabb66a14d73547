use lf_base::{Bytes, Name, Pos};

/// A frame of a stream from a primary to a replica.
#[derive(Debug, Drop)]
pub enum Frame {
    /// An LTX file of the database of this name. Its bytes are not looked at here.
    Ltx { name: Name, bytes: Bytes },
    /// The replica is level, at this position.
    Ready { name: Name, pos: Pos },
    /// The stream ends, since this node is no primary any longer.
    End,
    /// The database of this name was dropped.
    Drop { name: Name },
}
