/// What bytes begin with, where a response is to come.
#[derive(Clone, Copy, Debug, PartialEq, Eq)]
pub enum Told {
    /// Less than a head, and one can still come.
    Part,
    /// A head of `used` bytes, and a body of `length` bytes behind it, or of all that comes.
    Whole {
        used: usize,
        status: u16,
        length: Option<u64>,
    },
}
