use std::alloc::Global;

/// By what a session dials and takes memory.
#[derive(Clone, Copy)]
pub(crate) struct Means<R> {
    pub rt: R,
    pub alloc: Global,
}
