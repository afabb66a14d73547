use lf_base::Text;

/// By what a link's request is passed on.
#[derive(Drop)]
pub struct Passage<T, C, P> {
    pub dialer: T,
    /// Where the application is found, as `host:port`.
    pub target: Text,
    pub clock: C,
    /// How a read waits, between two asks.
    pub pause: P,
    /// How many turns the session has: each is a call of a link that moves bytes, or an ask of the node.
    pub budget: u64,
}
