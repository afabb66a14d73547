//! CRC-64/GO-ISO and the sums of database pages that LTX files carry.
//!
//! It knows bytes and page numbers, and nothing of images or files. Only the table of sums takes
//! memory, by `reserve`.
//!
//! `crc` has the checksum, `sums` those of pages, and `table` keeps them. Below `crc`, `blocks` takes
//! 256 bytes at a time, `words` eight at a time by the `tables`, and `bits` each bit as the
//! definition has it.
#![tactic(auto)]

mod bits;
mod blocks;
mod crc;
mod entries;
mod sums;
mod table;
mod tables;
mod words;

pub use crc::{FIRST_REGISTER, crc_feed, crc64, pieces_join};
pub use sums::{CHECKSUM_FLAG, page_sum};
pub use table::Sums;
