//! What every session on a link stands on: a budget of turns, messages read in whatever pieces they
//! come, texts written whole, asks repeated until they are settled, and the rounds of a conversation.
//!
//! It knows no message's meaning and no node: a `Feed` says where a message ends, `Steps` ask a
//! machine.
#![tactic(auto)]

mod asking;
mod feed;
mod frame_feed;
mod inbox;
mod laws;
mod message_feed;
mod patience;
mod seat;
mod session;
mod stage;
mod steps;
mod unread;

pub use asking::take_step;
pub use feed::{Feed, FeedFault};
pub use inbox::{Inbox, Piece};
pub use laws::{rounds_follow, seats_are_in_runs};
pub use patience::Patience;
pub use seat::{AtSeat, SeatPlace};
pub use session::{Session, Turns, ask_until, write_both, write_whole};
pub use stage::Stage;
pub use steps::Steps;
pub use unread::Unread;
