//! What is said between a node and etcd, in the JSON of the gateway of etcd 3.4: the bodies of calls, and
//! what replies say.
//!
//! It asks nothing: how a call goes, and what its answer means, is etcd_lease's.
#![tactic(auto)]

mod bodies;
mod call;
mod reading;
mod said;

pub use bodies::{body_of, coded};
pub use call::Call;
pub use reading::read_said;
pub use said::{KeyValue, Said};
