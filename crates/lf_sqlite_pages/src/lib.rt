//! A SQLite database as pages: its image, and the changes that lead from one image to the next.
//!
//! An image owns its pages, and a change the pages that it writes. Nothing here knows a file, a
//! checksum or a transaction number.
#![tactic(auto)]

mod blocks;
mod change;
mod header;
mod image;
mod image_laws;
mod limits;
mod missing;
mod overlay;
mod page;
mod page_size;
mod page_store;
mod page_write;
mod pages;
mod placing;
mod table;

pub use blocks::{BLOCKS_LIMIT, Blocks};
pub use change::Change;
pub use header::{header_pages, is_wal, page_size_of};
pub use image::Image;
pub use image_laws::{
    complete_change_leads_to_the_same_image, same_images_are_alike, small_image_has_no_lock_page,
    whole_change_is_the_image,
};
pub use limits::{is_within_limit, lock_page};
pub use overlay::Overlay;
pub use page_size::is_page_size;
pub use page_store::{PageStore, sound_store};
pub use page_write::PageWrite;
