/// An object that a maker took back.
#[derive(Drop)]
pub enum Returned<D, F, H, T, S> {
    Disk(D),
    /// Where file links came from.
    Files(F),
    /// Where HTTP links came from.
    Http(H),
    Dialer(T),
    Spawner(S),
}
