//! One HTTP request and its reply over a link, from either end.
//!
//! It knows no node: what a call means, and what a body says, is the caller's.
#![tactic(auto)]

mod asking;
mod body;
mod call_head;
mod call_reading;
mod called;
mod ends;
mod letter;
mod more;
mod passing;
mod posting;
mod reply_head;
mod reply_reading;
mod request;
mod sending;
mod told;
mod wants;

pub use asking::exchange;
pub use call_reading::read_call;
pub use called::{Body, Called};
pub use ends::{at_end, untold_by};
pub use letter::Letter;
pub use more::read_more;
pub use posting::exchange_text;
pub use request::Request;
pub use sending::{write_reply, write_typed_reply};
pub use told::{Told, Untold};
pub use wants::{Kept, Wants};
