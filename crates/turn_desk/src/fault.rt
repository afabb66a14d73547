//! Why a call on a desk is refused.

/// 2^62 steps were made, and there is no turn for another.
#[derive(Clone, Copy, Debug, PartialEq, Eq)]
pub struct Worn;

/// Why a step was not taken at once.
#[derive(Clone, Copy, Debug, PartialEq, Eq)]
pub enum Tried {
    /// Another seat had the turn, or took it first.
    Busy,
    /// 2^62 steps were made.
    Worn,
}

/// Why no seat was split off.
#[derive(Clone, Copy, Debug, PartialEq, Eq)]
pub enum SplitFault {
    /// 2^62 numbers were drawn.
    Worn,
    /// A seat takes no memory here, so this never comes.
    NoMemory,
}
