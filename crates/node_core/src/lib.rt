//! A node as one machine: a request in, an answer and a new state out.
//!
//! It serves the files of one database over its store. What each ask does is said by `Does` in the
//! specifications, and what a step tells the cluster by `StepsSafely`.
#![tactic(auto)]

mod answer;
mod ask;
mod config;
mod dropping;
mod errno;
mod exporting;
mod files;
mod forwarding;
mod framing;
mod held_back;
mod hello;
mod holding_back;
mod importing;
mod info;
mod laws;
mod leading;
mod leasing;
mod lending;
mod locking;
mod news;
mod node;
mod octets;
mod opening;
mod permitting;
mod pruning;
mod received;
mod refusal;
mod replying;
mod running;
mod sending;
mod sent;
mod serving;
mod standing;
mod stepping;
mod telling;
mod unlinking;
mod watching;
mod whereabouts;

pub use answer::Answer;
pub use ask::Ask;
pub use config::NodeConfig;
pub use files::Files;
pub use held_back::HeldBack;
pub use info::NodeInfo;
pub use laws::{asks_are_of_the_laws, crashes_are_opened, permit_is_alone, runs_are_steps};
pub use news::LeaseNews;
pub use node::Node;
pub use refusal::Refusal;
pub use standing::Standing;
pub use whereabouts::Whereabouts;
