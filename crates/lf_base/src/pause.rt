/// A nap. It returns, and nothing is told of it.
pub trait Pause {
    fn nap(&mut self);

    /// So many naps in one.
    fn naps(&mut self, count: u64);
}

/// No nap at all.
#[derive(Clone, Copy, Debug, PartialEq, Eq)]
pub struct NoPause;

impl NoPause {
    pub fn new() -> NoPause {
        NoPause
    }
}

impl Pause for NoPause {
    fn nap(&mut self) {}

    fn naps(&mut self, _count: u64) {}
}
