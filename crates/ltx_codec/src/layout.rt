//! The bytes of a header and of a trailer. No call takes memory.
ghost use Rattle.std.specs.Prelude.{◌≡◌, ◌++◌};
ghost use Rattle.std.specs.Int.{w64, to_be_bytes};
ghost use Rattle.ltx_codec.specs.Format.{header_encoding, no_meaning};

use crate::header::Header;

/// The first bytes of a file: its magic, and flags of 0.
const MAGIC_AND_FLAGS: [u8; 8] = *b"LTX1\0\0\0\0";

/// The bytes of a header, with flags and reserved bytes of 0.
pub fn header_bytes(header: &Header) -> [u8; 100]
    ensures { result ≡ header_encoding header.now no_meaning }
{
    let mut bytes = [0; 100];
    bytes[..8].copy_from_slice(&MAGIC_AND_FLAGS);
    bytes[8..12].copy_from_slice(&header.page_size.to_be_bytes());
    bytes[12..16].copy_from_slice(&header.commit.to_be_bytes());
    bytes[16..24].copy_from_slice(&header.min.to_be_bytes());
    bytes[24..32].copy_from_slice(&header.max.to_be_bytes());
    bytes[32..40].copy_from_slice(&header.stamp.to_be_bytes());
    bytes[40..48].copy_from_slice(&header.pre.to_be_bytes());
    bytes[48..56].copy_from_slice(&header.wal_offset.to_be_bytes());
    bytes[56..64].copy_from_slice(&header.wal_size.to_be_bytes());
    bytes[64..68].copy_from_slice(&header.wal_salt1.to_be_bytes());
    bytes[68..72].copy_from_slice(&header.wal_salt2.to_be_bytes());
    bytes[72..80].copy_from_slice(&header.node.to_be_bytes());
    bytes
}

/// The bytes of a trailer: the sum of the database after the transactions, and the file sum.
pub fn trailer_bytes(post: u64, file_sum: u64) -> [u8; 16]
    ensures { result ≡ to_be_bytes w64 post ++ to_be_bytes w64 file_sum }
{
    let mut bytes = [0; 16];
    bytes[..8].copy_from_slice(&post.to_be_bytes());
    bytes[8..].copy_from_slice(&file_sum.to_be_bytes());
    bytes
}
