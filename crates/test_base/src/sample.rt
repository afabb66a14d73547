//! LTX files of pages of zeros of 512 bytes, of the format's description, byte by byte. The sums were computed by another
//! program.

use lf_base::NoMemory;
use std::alloc::{AllocError, Global};

/// The sums of databases of one page of zeros, of two, and of none.
pub const ONE_PAGE: u64 = 0xefb1_f44f_ecd9_9000;

pub const TWO_PAGES: u64 = 0x80d2_1cd0_0000_0000;

pub const NO_PAGES: u64 = 0x8000_0000_0000_0000;

/// The sums of the first two files.
pub const FILE_SUM_1: u64 = 0xb8dc_e586_6977_8c30;

pub const FILE_SUM_2: u64 = 0xe529_06ba_6d3f_4924;

/// The fields of a file of one page of zeros or none. The others are 0.
#[derive(Clone, Copy)]
pub struct Fields {
    pub page_size: u32,
    pub commit: u32,
    pub txid: u64,
    pub pre: u64,
    pub page: Option<u32>,
    pub post: u64,
    pub sum: u64,
}

/// Page 1, from nothing.
pub const SNAPSHOT: Fields = Fields {
    page_size: 512,
    commit: 1,
    txid: 1,
    pre: 0,
    page: Some(1),
    post: ONE_PAGE,
    sum: FILE_SUM_1,
};

/// Page 2, after the snapshot.
pub const DELTA: Fields = Fields {
    page_size: 512,
    commit: 2,
    txid: 2,
    pre: ONE_PAGE,
    page: Some(2),
    post: TWO_PAGES,
    sum: FILE_SUM_2,
};

/// No pages, from nothing.
pub const EMPTY: Fields = Fields {
    page_size: 512,
    commit: 0,
    txid: 1,
    pre: 0,
    page: None,
    post: NO_PAGES,
    sum: 0x8106_fa82_9c65_6655,
};

/// What stands for the page, with its number in front.
fn page_bytes(alloc: Global, fields: &Fields) -> Result<Vec<u8>, AllocError> {
    let mut bytes = Vec::new(alloc);
    if let Some(number) = fields.page {
        bytes.extend_from_slice(&number.to_be_bytes())?;
        bytes.resize(4 + fields.page_size as usize, 0)?;
    }
    Ok(bytes)
}

/// The bytes of a file, whatever its fields say.
pub fn encoding(alloc: Global, fields: &Fields) -> Result<Vec<u8>, AllocError> {
    let page = page_bytes(alloc, fields)?;
    [
        b"LTX1\0\0\0\0".as_slice(),
        &fields.page_size.to_be_bytes(),
        &fields.commit.to_be_bytes(),
        &fields.txid.to_be_bytes(),
        &fields.txid.to_be_bytes(),
        &[0; 8],
        &fields.pre.to_be_bytes(),
        &[0; 52],
        page.as_slice(),
        &[0; 4],
        &fields.post.to_be_bytes(),
        &fields.sum.to_be_bytes(),
    ]
    .concat(alloc)
}

/// Files, one after another.
pub fn encode_all(alloc: Global, files: &[Fields]) -> Result<Vec<u8>, NoMemory> {
    let mut bytes = Vec::new(alloc);
    for fields in files {
        bytes.extend_from_slice(encoding(alloc, fields)?.as_slice())?;
    }
    Ok(bytes)
}
