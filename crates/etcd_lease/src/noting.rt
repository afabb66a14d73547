use lf_base::{Handles, Text};

/// What is told of the members of a cluster.
pub trait Noting {
    /// This one gave no whole answer, and the next is asked.
    fn passed_over<R: Handles>(&mut self, rt: &R, endpoint: &Text);
}
