use node_core::Whereabouts;

/// What a follower was sent of its stream.
#[derive(Clone, Copy, Debug, PartialEq, Eq)]
pub enum Sent {
    /// Nothing, not even the head of the reply.
    Nothing,
    /// That the stream has begun.
    Head,
    /// That it was level, too.
    Ready,
}

/// How a follower stands.
#[derive(Clone, Copy, Debug, PartialEq, Eq)]
pub struct Standing {
    /// Where it stands, once it has applied what it was sent, and what it said of its last file, while it
    /// was sent nothing.
    pub here: Whereabouts,
    pub sent: Sent,
}
