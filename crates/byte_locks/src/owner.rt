/// Who holds a lock: the file session, and the lock owner's number within it.
#[derive(Clone, Copy, Debug, PartialEq, Eq)]
pub struct Owner {
    pub session: u64,
    pub id: u64,
}
