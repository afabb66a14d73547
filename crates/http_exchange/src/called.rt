use lf_base::Bytes;
use stream_wire::Call;

/// What became of a request's body.
#[derive(Debug, Drop)]
pub enum Body {
    Whole(Bytes),
    /// It was passed over, to its end.
    Passed,
    /// It is longer than what is kept, and was not read.
    Unread,
}

/// A request that was read.
#[derive(Debug, Drop)]
pub struct Called {
    /// The bytes of its head.
    pub head: Bytes,
    pub call: Call,
    pub body: Body,
}
