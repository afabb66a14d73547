/// What became of a key that was held.
#[derive(Clone, Copy, Debug, PartialEq, Eq)]
pub(crate) enum Kept {
    /// Nothing is known of it.
    Unknown,
    /// It is gone, or another's.
    Gone,
    /// It lasts for so many seconds.
    Lasts(u64),
}
