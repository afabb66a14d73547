//! One file in memory.
ghost use Rattle.std.specs.Prelude.{◌≡◌, ◌≤◌, ◌+◌, ◌-◌, ◌++◌, length, take, drop, replicate, OnOk, OnErr};
ghost use Rattle.lf_base.specs.FileBytes.{overwritten};
ghost use Rattle.lf_disk.specs.Change.{Writes, Cuts};

use lf_base::Bytes;
use std::alloc::{AllocError, Global};

/// Puts a piece over the bytes from an offset on.
fn fill(bytes: &mut [u8], at: usize, piece: &[u8])
    requires { at + length piece.now ≤ length bytes.old }
    ensures { bytes.new ≡ take at bytes.old ++ piece.now ++ drop (at + length piece.now) bytes.old }
{
    let end = at + piece.len();
    bytes[at..end].copy_from_slice(piece);
}

/// Makes the bytes at least this long, by zeros.
fn lengthen(bytes: &mut Vec<u8>, end: usize) -> Result<(), AllocError>
    ensures ok { OnOk result (bytes.new.items ≡ bytes.old.items ++ replicate (end - length bytes.old.items) 0) }
    ensures err { OnErr result (bytes.new.items ≡ bytes.old.items) }
{
    if end > bytes.len() {
        bytes.resize(end, 0)?;
    }
    Ok(())
}

/// Writes over the bytes from an offset on. A gap holds zeros.
fn write_into(bytes: &mut Vec<u8>, at: usize, piece: &[u8]) -> Result<(), AllocError>
    ensures ok { OnOk result (bytes.new.items ≡ overwritten at piece.now bytes.old.items) }
    ensures err { OnErr result (bytes.new.items ≡ bytes.old.items) }
{
    let end = at.checked_add(piece.len()).ok_or(AllocError)?;
    lengthen(bytes, end)?;
    fill(bytes, at, piece);
    Ok(())
}

/// Writes into a file, which it makes where there is none.
pub fn overwrite(
    alloc: Global,
    file: &mut Option<Bytes>,
    at: usize,
    piece: &[u8],
) -> Result<(), AllocError>
    ensures ok { OnOk result (Writes at piece.now file.old file.new) }
    ensures err { OnErr result (file.new ≡ file.old) }
{
    match file.take() {
        Some(old) => {
            let mut bytes = old.into_vec();
            let outcome = write_into(&mut bytes, at, piece);
            *file = Some(Bytes::of(bytes));
            outcome
        }
        None => {
            let mut bytes = Vec::new(alloc);
            write_into(&mut bytes, at, piece)?;
            *file = Some(Bytes::of(bytes));
            Ok(())
        }
    }
}

/// Gives a file a length. It makes one where there is none.
pub fn resize(alloc: Global, file: &mut Option<Bytes>, len: usize) -> Result<(), AllocError>
    ensures ok { OnOk result (Cuts len file.old file.new) }
    ensures err { OnErr result (file.new ≡ file.old) }
{
    match file.take() {
        Some(old) => {
            let mut bytes = old.into_vec();
            let outcome = bytes.resize(len, 0);
            *file = Some(Bytes::of(bytes));
            outcome
        }
        None => {
            let mut bytes = Vec::new(alloc);
            bytes.resize(len, 0)?;
            *file = Some(Bytes::of(bytes));
            Ok(())
        }
    }
}
