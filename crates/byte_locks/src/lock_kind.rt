/// How a lock is held: by any number of readers together, or by one writer alone.
#[derive(Clone, Copy, Debug, PartialEq, Eq)]
pub enum LockKind {
    Read,
    Write,
}
