use std::alloc::Global;

/// By what a call is made: the runtime, and memory.
#[derive(Clone, Copy)]
pub(crate) struct Means<'a, R> {
    pub rt: &'a R,
    pub alloc: Global,
}
