//! The laws of a cluster of nodes that run this program, over every list of steps, deliveries, losses, lease changes, stops and
//! restarts.
//!
//! There is no code here that runs: each law is the contract of a function that calls other laws at most. What a step of a
//! node tells comes from node_core, and what holds of every list of such steps from world_laws. `start_node` alone is no law: it
//! makes the two calls of a start.
#![tactic(auto)]

mod laws;
mod link_laws;
mod starting;

pub use laws::{
    cluster_answers_install, cluster_forwards_once, cluster_is_safe, cluster_opens,
    cluster_reader_steady, leased_cluster_is_safe, running_cluster_holds,
    service_answers_are_moves, service_leads,
};
pub use link_laws::followers_ask_what_was_sent;
pub use starting::start_node;
