//! The pages of the drill's database.

use lf_base::{Bytes, NoMemory};
use std::alloc::Global;

/// The size of a page, in bytes.
pub(crate) const PAGE_SIZE: usize = 4_096;

/// How many pages the database has.
pub(crate) const PAGES: u64 = 64;

/// Where page 1 has the page size, and where the number of its last transaction.
const SIZE_AT: usize = 16;

const TXID_AT: usize = 24;

/// A page full of one byte.
pub(crate) fn full_page(alloc: Global, byte: u8) -> Result<Bytes, NoMemory> {
    Ok(Bytes::of(vec![in alloc; byte; PAGE_SIZE]?))
}

/// Page 1 once the transaction of a number has written it.
pub(crate) fn first_page(alloc: Global, txid: u32) -> Result<Bytes, NoMemory> {
    let mut page = vec![in alloc; 0u8; PAGE_SIZE]?;
    page[SIZE_AT] = 0x10;
    page[TXID_AT..TXID_AT + 4].copy_from_slice(&txid.to_be_bytes());
    Ok(Bytes::of(page))
}

/// How many pages stand in a run, and their bytes.
pub(crate) const RUN: u64 = 32;

const RUN_SIZE: usize = 131_072;

/// A run of pages full of zeros.
pub(crate) fn blank_run(alloc: Global) -> Result<Bytes, NoMemory> {
    Ok(Bytes::of(vec![in alloc; 0u8; RUN_SIZE]?))
}
