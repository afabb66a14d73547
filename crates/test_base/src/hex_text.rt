//! Bytes as texts of hexadecimal digits, with blanks where the fields of a message end.

use lf_base::NoMemory;
use std::alloc::Global;

/// What a digit stands for.
fn digit_of(byte: u8) -> Option<u8> {
    match byte {
        b'0'..=b'9' => Some(byte - b'0'),
        b'a'..=b'f' => Some(byte - b'a' + 10),
        _ => None,
    }
}

/// Appends the bytes that a text stands for: two digits are a byte, and all else is passed over.
pub fn append_hex(bytes: &mut Vec<u8>, text: &[u8]) -> Result<(), NoMemory> {
    let mut high = None;
    for byte in text {
        let Some(digit) = digit_of(*byte) else {
            continue;
        };
        match high {
            None => high = Some(digit),
            Some(first) => {
                bytes.push(first << 4 | digit)?;
                high = None;
            }
        }
    }
    Ok(())
}

/// The bytes that texts stand for, one behind another.
pub fn hex_bytes(alloc: Global, texts: &[&[u8]]) -> Result<Vec<u8>, NoMemory> {
    let mut bytes = Vec::new(alloc);
    for text in texts {
        append_hex(&mut bytes, text)?;
    }
    Ok(bytes)
}
