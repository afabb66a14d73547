//! The header that tests of three crates begin with, and the sample files changed.
use ltx_codec::Header;
use std::alloc::{AllocError, Global};
use test_base::{Fields, SNAPSHOT, encoding};

pub const PAGE: [u8; 512] = [0; 512];

/// The snapshot with bytes replaced from a place on.
pub fn changed(alloc: Global, place: usize, with: &[u8]) -> Result<Vec<u8>, AllocError> {
    let mut bytes = encoding(alloc, &SNAPSHOT)?;
    for (index, byte) in with.iter().enumerate() {
        if let Some(old) = bytes.get_mut(place.saturating_add(index)) {
            *old = *byte;
        }
    }
    Ok(bytes)
}

/// The header of a file of one transaction, with 0 in the fields that do not bear on its pages.
pub fn header(page_size: u32, commit: u32, txid: u64, pre: u64) -> Header {
    Header {
        page_size,
        commit,
        min: txid,
        max: txid,
        stamp: 0,
        pre,
        wal_offset: 0,
        wal_size: 0,
        wal_salt1: 0,
        wal_salt2: 0,
        node: 0,
    }
}

pub fn header_of(fields: &Fields) -> Header {
    header(fields.page_size, fields.commit, fields.txid, fields.pre)
}
