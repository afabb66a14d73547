//! Leases: who may commit, as the lease service grants it and as a node believes it.
//!
//! The table is the service's, the belief a node's. Neither reads a clock: each call is given the
//! moment. The texts between the two are JSON.
#![tactic(auto)]

mod belief;
mod body_fault;
mod grant;
mod json;
mod laws;
mod lease_ask;
mod lease_fault;
mod lease_reply;
mod lease_table;
mod members;
mod reading;
mod reading_replies;
mod texts;
mod writing;

pub use belief::Belief;
pub use body_fault::BodyFault;
pub use grant::Grant;
pub use json::read_json;
pub use laws::{belief_ends_first, holder_believes, one_live_lease, one_reading};
pub use lease_ask::LeaseAsk;
pub use lease_fault::LeaseFault;
pub use lease_reply::{LeaseKind, LeaseReply};
pub use lease_table::LeaseTable;
pub use reading::read_body;
pub use reading_replies::read_reply;
pub use writing::{write_ask, write_body};
