//! Leases by etcd: a node's lease is a key of an etcd cluster, asked over the JSON gateway of etcd 3.4.
//!
//! It knows no node. A round's news and its end are lease_link's; the exchanges are http_exchange's, their
//! texts etcd_wire's.
#![tactic(auto)]

mod acquiring;
mod asking;
mod etcd_service;
mod found;
mod held;
mod informing;
mod kept;
mod means;
mod noting;
mod renewing;
mod rounds;
mod settings;
mod waiting;

pub use etcd_service::EtcdService;
pub use held::Held;
pub use noting::Noting;
pub use settings::EtcdSettings;
