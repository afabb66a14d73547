//! What a source is that is read as a file.

use ltx_codec::{Header, LtxFault};

/// The header of a file, and the sum that it leads to.
#[derive(Clone, Copy, Debug)]
pub struct Outline {
    pub header: Header,
    pub post: u64,
}

/// Why a source is not read as a file.
#[derive(Clone, Copy, Debug)]
pub enum SourceFault {
    /// The source failed.
    Source,
    /// Its bytes are the encoding of no file.
    Ltx(LtxFault),
}
