//! Tables over links in memory: messages in pieces, texts written.

mod reading;
mod writing;
