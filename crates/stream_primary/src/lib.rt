//! HTTP requests to the node, one a link.
//!
//! A request is read to the end of its body and served by its call: a call is one row of the tables in
//! `calls`, a file that serves it, and a clause of `specs/Calls.antt`. The stream of the database, its
//! export, its import, its write permits, what the node is, its metrics and its events are served; every
//! other call is answered with status 404.
#![tactic(auto)]

mod about;
mod asking;
mod calls;
mod database_calls;
mod ending;
mod event_lines;
mod events;
mod forward_call;
mod halt_calls;
mod hello;
mod histogram;
mod info_text;
mod json_line;
mod json_text;
mod laws;
mod metric;
mod metric_names;
mod metrics_text;
mod names;
mod refusals;
mod replies;
mod serving;
mod session;
mod standing;
mod stream_call;
mod streaming;
mod telling;
mod viewed;
mod watch_call;

pub use about::About;
pub use laws::{owed_again, stream_in_one_run};
pub use serving::serve_http;
pub use session::serve_link;
