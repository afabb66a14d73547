/// What bytes begin with, where a request is to come.
#[derive(Clone, Copy, Debug, PartialEq, Eq)]
pub(crate) enum Asked {
    /// Less than a request, and one can still come.
    Part,
    /// A request whose head has `size` bytes, and whose body `length`.
    Whole { size: usize, length: u64 },
    /// A request whose body is longer than what is passed on.
    TooLong,
}
