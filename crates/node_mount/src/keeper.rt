use crate::lease_source::LeaseSource;
use crate::notes::Notes;
use crate::wish::Wish;
use lease_core::Grant;

/// What asks for a node's lease.
#[derive(Drop)]
pub struct Keeper<T, C> {
    pub dialer: T,
    pub source: LeaseSource<C>,
    /// The node's own, with the term that it has, 0 for none.
    pub own: Grant,
    pub wish: Wish,
    /// Where it notes that it waits.
    pub notes: Notes,
}
