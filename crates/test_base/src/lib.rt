//! What the programs of rows and the test crates share: why a scene stops, links in memory, sample files, records of lines, and
//! what is printed. Nothing of the node stands on it.
#![tactic(auto)]

mod disks;
mod ends;
mod fault;
mod hex_text;
mod lines;
mod links;
mod lists;
mod names;
mod record;
mod sample;

pub use disks::{Failing, blank};
pub use ends::end_name;
pub use fault::Fault;
pub use hex_text::{append_hex, hex_bytes};
pub use lines::{print_line, print_shown};
pub use links::{NEVER, link_failing, link_in_pieces, link_of, nobody};
pub use lists::{Pieces, one, padded};
pub use names::database;
pub use record::{copied, decoded, number, read_line, text};
pub use sample::{
    DELTA, EMPTY, FILE_SUM_1, FILE_SUM_2, Fields, NO_PAGES, ONE_PAGE, SNAPSHOT, TWO_PAGES,
    encode_all, encoding,
};
