use crate::Call;

/// What bytes begin with, where a request is to come.
#[derive(Debug, Drop)]
pub enum Heard {
    /// Less than a head, and one can still come.
    Part,
    /// A head of `used` bytes, which names the call, and a body of `length` bytes behind it.
    Whole {
        used: usize,
        call: Call,
        length: u64,
    },
}
