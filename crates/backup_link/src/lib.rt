//! What is new in a node's database goes into a backup: the node is asked for its stream by one dial, and
//! each file that comes is added, until the node says that the backup is level.
#![tactic(auto)]

mod adding;
mod backing_up;
mod dialing;
mod disks;
mod following;
mod frames;
mod head_reading;
mod level_names;
mod origin;
mod refilling;
mod requesting;
mod restoring;
mod streaming;
mod unfetched;

pub use backing_up::back_up;
pub use dialing::fetch;
pub use disks::Disks;
pub use level_names::level_name;
pub use origin::Origin;
pub use restoring::restore;
pub use unfetched::Unfetched;
