//! Where the fields of a header stand, and what they say.
ghost use Rattle.std.specs.Prelude.{◌≡◌, ◌≤◌, length};
ghost use Rattle.ltx_codec.specs.Fields.{header_in};

use crate::header::Header;
use lf_base::{be32_at, be64_at};

pub const FLAGS: usize = 4;

pub const PAGE_SIZE: usize = 8;

pub const COMMIT: usize = 12;

pub const MIN: usize = 16;

pub const MAX: usize = 24;

const STAMP: usize = 32;

pub const PRE: usize = 40;

const WAL_OFFSET: usize = 48;

const WAL_SIZE: usize = 56;

const WAL_SALT1: usize = 64;

const WAL_SALT2: usize = 68;

const NODE: usize = 72;

/// The header's fields, whatever they say.
pub fn header_at(bytes: &[u8]) -> Header
    requires { 100 ≤ length bytes.now }
    ensures { result ≡ header_in bytes.now }
{
    Header {
        page_size: be32_at(bytes, PAGE_SIZE),
        commit: be32_at(bytes, COMMIT),
        min: be64_at(bytes, MIN),
        max: be64_at(bytes, MAX),
        stamp: be64_at(bytes, STAMP),
        pre: be64_at(bytes, PRE),
        wal_offset: be64_at(bytes, WAL_OFFSET),
        wal_size: be64_at(bytes, WAL_SIZE),
        wal_salt1: be32_at(bytes, WAL_SALT1),
        wal_salt2: be32_at(bytes, WAL_SALT2),
        node: be64_at(bytes, NODE),
    }
}
