//! What lies in the desk's one slot.
use std::snapshot::Snapshot;

/// The ask and the answer of a step, for contracts alone: a snapshot has no bytes.
#[derive(Drop)]
pub struct LastStep<Q, A> {
    pub ask: Snapshot<Q>,
    pub answer: Snapshot<A>,
}

/// The machine, beside its last step. What giving up the turn tells its seat can name neither ask nor answer, so the slot
/// keeps them.
#[derive(Drop)]
pub struct SlotValue<M, Q, A> {
    pub machine: M,
    /// None before the first step.
    pub last: Option<LastStep<Q, A>>,
}
