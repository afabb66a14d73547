//! Leases over HTTP: the service on a link, and a node's rounds with it.
//!
//! It knows no node: what a machine is asked for news is the caller's (`Bringing`).
#![tactic(auto)]

mod answering;
mod bringing;
mod giving_up;
mod keep_end;
mod keeping;
mod learned;
mod learning;
mod own_service;
mod round;
mod seat;
mod service;
mod serving;
mod unlearned;
mod unserved;
mod waited;

pub use answering::{answer, status_of};
pub use bringing::Bringing;
pub use keep_end::KeepEnd;
pub use learned::Learned;
pub use learning::{learn, round_ask};
pub use own_service::OwnService;
pub use round::Round;
pub use seat::{give_up_lease, keep_lease};
pub use service::Service;
pub use serving::serve_lease;
pub use unlearned::Unlearned;
pub use unserved::Unserved;
pub use waited::Waited;
