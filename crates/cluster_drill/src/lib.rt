//! The drill: a primary and two replicas over disks in memory, and a number that chooses what a client
//! writes, which files are lost on their way, and where a replica stops while it applies one.
#![tactic(auto)]

mod draws;
mod drill;
mod follower;
mod nodes;
mod pages;
mod shown;
mod telling;
mod writer;

pub use drill::{Drill, play_drill};
pub use follower::{Fates, Follower};
pub use nodes::MemNode;
pub use shown::Shown;
