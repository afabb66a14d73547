//! LTX files: their encoding read and written.
//!
//! `Format` in the specifications says what a file is, its rules and its one encoding; `Places` says
//! where bytes break a rule. Reading and writing both stand on these two and not on each other.
#![tactic(auto)]

mod appending;
mod decoder;
mod decoder_block;
mod decoder_header;
mod decoder_trailer;
mod encoder;
mod fault;
mod fields;
mod file;
mod file_reader;
mod head_rules;
mod header;
mod image_sum;
mod laws;
mod laws_of_parts;
mod laws_of_sums;
mod layout;
mod numbering;
mod reading;
mod rules;
mod seen;
mod whole_pages;
mod writing;

pub use decoder::Decoder;
pub use decoder_trailer::sealed;
pub use encoder::Encoder;
pub use fault::LtxFault;
pub use file::Ltx;
pub use file_reader::FileReader;
pub use header::Header;
pub use image_sum::{changed_sum, sum_after, sum_of_writes};
pub use laws::{
    encoding_breaks_no_rule, fault_stays, file_is_read, one_earliest_fault, one_reading,
};
pub use laws_of_parts::{pages_as_shown, parts_are_the_encoding};
pub use laws_of_sums::{sum_of_a_whole_change, sums_page_by_page};
pub use layout::{header_bytes, trailer_bytes};
pub use reading::{decode, decode_first};
pub use seen::Seen;
pub use writing::encode;
