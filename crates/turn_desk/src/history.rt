//! The history of a desk. It exists in contracts alone.

/// One step of the history: who asked what, and the answer. No value of it is made.
pub struct Entry<Q, A> {
    pub caller: u64,
    pub ask: Q,
    pub answer: A,
}
