//! Sources that are read as a file, or whose file a store takes.
ghost use Rattle.std.specs.Prelude.{◌≡◌, length, IfSome};

use crate::samples::{A, encoding_of};
use crate::steps::Taking;
use lf_base::{Pos, SliceSource};
use lf_disk::Disk;
use snapshot::install_from;
use std::alloc::Global;
use std::io;
use txn_log::{Coming, FileDecoder, FromFault, Outline, SourceFault, Store, read_source};

/// Room for a piece.
pub fn room(alloc: Global) -> Option<Vec<u8>>
    ensures { IfSome result (λ room. length room.items ≡ 65536) }
{
    vec![in alloc; 0u8; 65536].ok()
}

/// A source of these bytes, whose call of the number `failing` fails.
fn source_of(alloc: Global, bytes: &[u8], failing: Option<u64>) -> Option<SliceSource<'_>> {
    let mut numbers = Vec::new(alloc);
    if let Some(number) = failing {
        if numbers.push(number).is_err() {
            return None;
        }
    }
    SliceSource::new(bytes, numbers).ok()
}

/// Reserves room for so many pages, and takes the file of a source.
fn take<D: Disk>(
    store: &mut Store<D>,
    taking: Taking,
    pages: u32,
    source: &mut SliceSource<'_>,
    piece: &mut [u8],
) -> Option<Result<Pos, FromFault>>
    requires { length piece.old ≡ 65536 }
{
    if store.reserve(pages).is_err() {
        return None;
    }
    match taking {
        Taking::Apply => Some(store.apply_from(source, piece)),
        Taking::Install => Some(install_from(store, source, piece)),
    }
}

/// The same of a source of these bytes, whose call of the number `failing` fails.
pub fn take_from<D: Disk>(
    alloc: Global,
    store: &mut Store<D>,
    taking: Taking,
    pages: u32,
    bytes: &[u8],
    failing: Option<u64>,
) -> Option<Result<Pos, FromFault>> {
    let mut source = source_of(alloc, bytes, failing)?;
    let mut piece = room(alloc)?;
    take(store, taking, pages, &mut source, piece.as_mut_slice())
}

/// What a source is.
fn read(alloc: Global, bytes: &[u8], failing: Option<u64>) -> Option<Result<Outline, SourceFault>> {
    let mut source = source_of(alloc, bytes, failing)?;
    let mut coming = Coming::new(FileDecoder::new(alloc).ok()?);
    let mut piece = room(alloc)?;
    Some(read_source(&mut source, &mut coming, piece.as_mut_slice()))
}

/// A part of an encoding, and the call of its source that fails.
#[derive(Clone, Copy)]
struct Reading {
    title: &'static str,
    from: usize,
    to: usize,
    failing: Option<u64>,
}

/// An encoding of 636 bytes with a byte behind it.
const READINGS: &[Reading] = &[
    Reading {
        title: "whole",
        from: 0,
        to: 636,
        failing: None,
    },
    Reading {
        title: "failing",
        from: 0,
        to: 636,
        failing: Some(0),
    },
    Reading {
        title: "cut off",
        from: 0,
        to: 635,
        failing: None,
    },
    Reading {
        title: "one byte more",
        from: 0,
        to: 637,
        failing: None,
    },
    Reading {
        title: "its end",
        from: 1,
        to: 637,
        failing: None,
    },
];

/// Prints what a source is.
fn print_read(rt: HostRuntime, bytes: &[u8], reading: &Reading) -> io::Result<()> {
    let title = reading.title;
    let part = bytes.get(reading.from..reading.to).unwrap_or(&[]);
    match read(rt.alloc(), part, reading.failing) {
        Some(Ok(file)) => {
            let header = file.header;
            println!(rt;
                "  {title}: {} to {}, {:x}",
                header.min, header.max, file.post
            )
        }
        Some(Err(why)) => println!(rt; "  {title}: {why:?}"),
        None => println!(rt; "  {title}: no memory"),
    }
}

fn print_each(rt: HostRuntime, bytes: &[u8]) -> io::Result<()> {
    for reading in READINGS {
        print_read(rt, bytes, reading)?;
    }
    Ok(())
}

/// The encoding of a file, whole, cut off, with a byte behind it and with another byte in it.
pub fn print_sources(rt: HostRuntime) -> io::Result<()> {
    let Some(mut encoding) = encoding_of(rt.alloc(), &A) else {
        return println!(rt; "no encoding");
    };
    println!(rt; "a source of {} bytes", encoding.len())?;
    match encoding.push(0) {
        Ok(()) => print_each(rt, encoding.as_slice()),
        Err(_) => println!(rt; "no memory"),
    }
}
