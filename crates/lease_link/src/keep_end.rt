use lf_base::Text;

/// How a round of a node with its lease ends.
#[derive(Debug, Drop)]
pub enum KeepEnd {
    /// It was made to its end, with a nap. `term` is the term that the node has then, 0 for none, and
    /// `url` where the primary is found, where the service said so.
    Done { term: u64, url: Option<Text> },
    /// The same, of a node without a term to which the service said that nobody is primary.
    Nobody,
    /// No turn was left.
    Turns,
    /// The desk takes no further step.
    Worn,
    NoMemory,
}
