use etcd_wire::Said;

/// What one of some endpoints said, and how many were asked before it.
#[derive(Debug, Drop)]
pub(crate) struct Found {
    pub said: Said,
    pub before: usize,
}
