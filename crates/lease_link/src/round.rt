use link_session::Turns;
use std::alloc::Global;

/// What a round has on its own side: memory, whom it dials, the service that it asks, the time, and the turns that are
/// left. What it borrows stays the same to its end. By whom it asks the machine (`Steps`) stands beside it.
#[derive(Drop)]
pub struct Round<'d, 'v, 'c, 'p, T, V, C, P> {
    pub alloc: Global,
    pub dialer: &'d mut T,
    pub service: &'v mut V,
    pub clock: &'c mut C,
    pub pause: &'p mut P,
    pub turns: Turns,
}
