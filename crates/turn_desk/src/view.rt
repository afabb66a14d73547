//! What a seat knows. It exists in contracts alone.
use crate::history::Entry;
use std::collections::LinkedList;

/// What a seat knows. No value of it is made.
pub struct SeatView<M, Q, A> {
    /// The machine as the desk was opened on it. A spent seat has none.
    pub opened: Option<M>,
    /// A seat that was just split off has none.
    pub number: Option<u64>,
    /// The seat has the turn.
    pub holds: bool,
    /// The history that it has seen.
    pub seen: LinkedList<Entry<Q, A>>,
    /// Its own calls.
    pub mine: LinkedList<Entry<Q, A>>,
    /// The shorter history of its last join.
    pub met: LinkedList<Entry<Q, A>>,
    /// The number of the other seat of its last join.
    pub met_number: Option<u64>,
    /// The numbers that its loads found in the turn word, in order.
    pub turn_words: LinkedList<u64>,
    /// The greatest number that its loads found in the number word.
    pub greatest_number: u64,
}
