use crate::outline::Outline;
use crate::tally::Tally;

/// What is kept of a file that was read to its end.
#[derive(Drop)]
pub struct FileSummary {
    pub outline: Outline,
    /// Of the pages that the file holds, where they were asked for.
    pub tally: Tally,
}
