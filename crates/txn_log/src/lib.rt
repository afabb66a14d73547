//! The store of a database: its pages in one file, and its log in transaction files.
//!
//! `Durable` in the specifications says which store the files of a folder stand for, `Store` what a
//! store's fields and its disk stand for, and `Calls` what a call did to it and what a crash leaves
//! at each moment. Above those, no clause speaks of bytes. `publishing` publishes one file and writes
//! its change; below it nothing knows a store.
#![tactic(auto)]

mod answering;
mod applying;
mod applying_from;
mod bringing;
mod coming;
mod committing;
mod dropping;
mod entry;
mod fault;
mod file_decoder;
mod file_staging;
mod installing;
mod laws;
mod opening;
mod outline;
mod passing;
mod placing_from;
mod pruning;
mod publishing;
mod reading;
mod receiving;
mod reserved;
mod reserving;
mod rewriting;
mod rewriting_from;
mod settling;
mod staging;
mod store;
mod sums;
mod taking_source;

pub use answering::Answer;
pub use coming::{Coming, Part, read_source};
pub use entry::{Attempt, Entry};
pub use fault::{FromFault, StoreFault};
pub use file_decoder::FileDecoder;
pub use installing::publish_anew_from;
pub use laws::{
    a_source_is_done_as_its_file, a_source_is_its_file, entries_name_all, pages_come_in_order,
    settled_stands,
};
pub use outline::{Outline, SourceFault};
pub use passing::begin_receiving;
pub use receiving::Receiving;
pub use reserved::Reserved;
pub use rewriting::rewrite;
pub use settling::{clear, empty, no_pages, settle};
pub use staging::{Staging, seal, stage_header, stage_page};
pub use store::Store;
pub use world_laws::LastFile;
