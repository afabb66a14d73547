//! What stands on the wire between nodes: the frames of a stream, and the heads of HTTP.
//!
//! Frames are read from pieces as they come. Heads are read and written whole; which of them call the
//! node is said here, and nothing of what a call does.
#![tactic(auto)]

mod call;
mod encoding;
mod feed;
mod frame;
mod framing;
mod front;
mod head_ends;
mod head_reading;
mod head_writing;
mod last_file;
mod last_file_field;
mod laws;
mod naming;
mod number_line;
mod numbers;
mod pass_line;
mod request;
mod request_head;
mod response;
mod stream_line;
mod wire_fault;

pub use call::Call;
pub use encoding::{encode_frame, encode_ltx_front};
pub use feed::{Fed, FrameFeed};
pub use frame::Frame;
pub use framing::decimal;
pub use head_reading::{read_request, read_response};
pub use head_writing::{write_head, write_request, write_typed_head};
pub use last_file::{LastFile, read_last_file, write_last_file};
pub use last_file_field::last_file_in;
pub use laws::{fronts_stay, one_reading, stream_heads_are_read, written_heads_are_read};
pub use number_line::{read_named_number, write_named_number};
pub use pass_line::{PassLine, read_pass_line, write_pass_line};
pub use request::Heard;
pub use request_head::{write_request_head, write_stream_head};
pub use response::Told;
pub use stream_line::{read_stream_line, write_stream_line};
pub use wire_fault::WireFault;
