/// A write permit: its number, and the moment at which it ends, in milliseconds of the primary's clock.
#[derive(Clone, Copy, Debug, PartialEq, Eq)]
pub struct HaltPass {
    /// Numbers ascend from 1.
    pub number: u64,
    pub until: u64,
}
