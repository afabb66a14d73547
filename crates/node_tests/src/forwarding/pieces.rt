//! Bytes as a table says them.
use std::alloc::Global;
use std::process::Abort;
use test_base::append_hex;

#[derive(Clone, Copy)]
pub enum Piece {
    Text(&'static [u8]),
    /// What hexadecimal digits stand for.
    Hex(&'static [u8]),
    /// So many of a byte.
    Full(u8, usize),
}

fn append<R: Copy + Abort>(rt: R, bytes: &mut Vec<u8>, piece: Piece) {
    match piece {
        Piece::Text(text) => bytes.extend_from_slice(text).expect(&rt, "memory"),
        Piece::Hex(text) => append_hex(bytes, text).expect(&rt, "memory"),
        Piece::Full(byte, count) => {
            let end = bytes.len().saturating_add(count);
            bytes.resize(end, byte).expect(&rt, "memory");
        }
    }
}

/// Appends all of them, one after another.
pub fn append_all<R: Copy + Abort>(rt: R, bytes: &mut Vec<u8>, pieces: &[Piece]) {
    for piece in pieces {
        append(rt, bytes, *piece);
    }
}

/// All of them, one after another.
pub fn bytes_of<R: Copy + Abort>(rt: R, alloc: Global, pieces: &[Piece]) -> Vec<u8> {
    let mut bytes = Vec::new(alloc);
    append_all(rt, &mut bytes, pieces);
    bytes
}
