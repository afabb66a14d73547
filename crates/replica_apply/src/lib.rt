//! A node that follows another: its stream is read, and each file of it asked of the node.
#![tactic(auto)]

mod applying;
mod asking;
mod doubt;
mod ends;
mod follow_end;
mod following;
mod frames;
mod head_feed;
mod patience;
mod requesting;

pub use applying::follow;
pub use doubt::Doubt;
pub use follow_end::FollowEnd;
pub use following::follow_link;
