//! The commands of the program `litefs`, over sources and sinks that a test can give too.
//!
//! `run` reads the arguments, performs their command and says how it went. What a run may come to is
//! said in the specifications `Run`; what applying LTX files comes to, in `Files`.
#![tactic(auto)]

mod applying;
mod asking;
mod backing;
mod backup_failure;
mod backup_words;
mod child_failure;
mod collected;
mod command;
mod compact_refusal;
mod compaction;
mod database;
mod drilling;
mod failure;
mod file_output;
mod folders;
mod gathering;
mod input;
mod laws;
mod mounting;
mod naming;
mod number;
mod options;
mod output;
mod refusal;
mod remote;
mod report;
mod running;
mod task;
mod top_call;
mod word_list;

pub use applying::apply_files;
pub use command::{Command, read_arguments};
pub use compact_refusal::CompactRefusal;
pub use compaction::compact_files;
pub use laws::{one_answer, one_command, one_compaction};
pub use refusal::Refusal;
pub use remote::Remote;
pub use task::Task;
pub use top_call::{Host, run};
pub use word_list::WordList;
