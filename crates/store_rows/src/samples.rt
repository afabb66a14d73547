//! Transaction files of databases, of which each page has 512 bytes and is full of one byte. The sums
//! were computed by another program.
ghost use Rattle.std.specs.Prelude.{IfSome};
ghost use Rattle.ltx_codec.specs.Format.{IsFile};

use lf_base::NoMemory;
use ltx_codec::{Encoder, Header, Ltx, decode};
use std::alloc::Global;
use test_base::{ONE_PAGE, TWO_PAGES};

/// A page that a file holds: its number, and the byte that it is full of.
pub type Filled = (u32, u8);

/// A transaction file.
#[derive(Clone, Copy)]
pub struct Sample {
    pub page_size: u32,
    pub min: u64,
    pub max: u64,
    pub commit: u32,
    pub pre: u64,
    pub pages: &'static [Filled],
    pub post: u64,
}

/// The sum of pages of 1 and 2.
pub const ONE_AND_TWO: u64 = 0xad2d_ffe3_3333_3333;

/// One page of zeros.
pub const A: Sample = Sample {
    page_size: 512,
    min: 1,
    max: 1,
    commit: 1,
    pre: 0,
    pages: &[(1, 0)],
    post: ONE_PAGE,
};

/// A second page of zeros.
pub const B: Sample = Sample {
    page_size: 512,
    min: 2,
    max: 2,
    commit: 2,
    pre: ONE_PAGE,
    pages: &[(2, 0)],
    post: TWO_PAGES,
};

/// Two pages of zeros, as the transactions 1 to 8.
pub const ZEROS_TO_8: Sample = Sample {
    page_size: 512,
    min: 1,
    max: 8,
    commit: 2,
    pre: 0,
    pages: &[(1, 0), (2, 0)],
    post: TWO_PAGES,
};

/// A page of 1 and one of 2, as the transactions 1 to 6.
pub const FILLED_TO_6: Sample = Sample {
    page_size: 512,
    min: 1,
    max: 6,
    commit: 2,
    pre: 0,
    pages: &[(1, 1), (2, 2)],
    post: ONE_AND_TWO,
};

fn header_of(sample: &Sample) -> Header {
    Header {
        page_size: sample.page_size,
        commit: sample.commit,
        min: sample.min,
        max: sample.max,
        stamp: 0,
        pre: sample.pre,
        wal_offset: 0,
        wal_size: 0,
        wal_salt1: 0,
        wal_salt2: 0,
        node: 0,
    }
}

fn add_pages(encoder: &mut Encoder, pages: &[Filled], out: &mut Vec<u8>) -> Result<(), NoMemory> {
    for (number, byte) in pages {
        encoder.page(*number, &[*byte; 512], out)?;
    }
    Ok(())
}

fn encode(sample: &Sample, out: &mut Vec<u8>) -> Result<(), NoMemory> {
    let mut encoder = Encoder::start(&header_of(sample), out)?;
    add_pages(&mut encoder, sample.pages, out)?;
    match encoder.finish(sample.post, out) {
        Ok(()) => Ok(()),
        Err((want, _)) => Err(want),
    }
}

/// The encoding of a file.
pub fn encoding_of(alloc: Global, sample: &Sample) -> Option<Vec<u8>> {
    let mut out = Vec::new(alloc);
    match encode(sample, &mut out) {
        Ok(()) => Some(out),
        Err(_) => None,
    }
}

/// The file that an encoding is.
pub fn file_in(alloc: Global, encoding: &[u8]) -> Option<Ltx>
    ensures { IfSome result IsFile }
{
    match decode(alloc, encoding) {
        Ok(file) => Some(file),
        Err(_) => None,
    }
}

/// The file.
pub fn file_of(alloc: Global, sample: &Sample) -> Option<Ltx>
    ensures { IfSome result IsFile }
{
    match encoding_of(alloc, sample) {
        Some(encoding) => file_in(alloc, encoding.as_slice()),
        None => None,
    }
}
