/// A Linux error number, as `errno(3)` lists them.
#[derive(Clone, Copy, Debug, PartialEq, Eq)]
pub struct Errno(pub u32);
