//! Files that come and go part by part.
use crate::same::{same, same_at};
use crate::sample::{PAGE, header_of};
use ltx_codec::{Decoder, Encoder, FileReader, Ltx, LtxFault, Seen};
use std::alloc::Global;
use std::process::Abort;
use test_base::{DELTA, EMPTY, Fields, ONE_PAGE, SNAPSHOT, encoding};

/// A file as an encoder writes it, part by part.
fn written(rt: &impl Abort, alloc: Global, fields: &Fields) -> Vec<u8> {
    let mut out = Vec::new(alloc);
    let mut encoder = Encoder::start(&header_of(fields), &mut out).expect(rt, "memory");
    if let Some(number) = fields.page {
        encoder.page(number, &PAGE, &mut out).expect(rt, "memory");
    }
    assert!(rt; encoder.finish(fields.post, &mut out).is_ok());
    out
}

#[test]
fn a_file_is_written_part_by_part(rt: HostRuntime) {
    for fields in [SNAPSHOT, DELTA, EMPTY] {
        let out = written(&rt, rt.alloc(), &fields);
        let bytes = encoding(rt.alloc(), &fields).expect(&rt, "memory");
        same(rt, out.as_slice(), bytes.as_slice());
    }
}

/// What the snapshot's byte at a place ends.
fn seen_at(place: usize) -> Seen {
    match place {
        99 => Seen::Header { used: 1 },
        615 => Seen::Page { used: 1, number: 1 },
        635 => Seen::Whole { used: 1 },
        _ => Seen::More,
    }
}

/// Each byte is a piece: the header, the page and the file end with the bytes that they end with.
#[test]
fn a_file_comes_byte_by_byte(rt: HostRuntime) {
    let bytes = encoding(rt.alloc(), &SNAPSHOT).expect(&rt, "memory");
    let mut decoder = Decoder::new(rt.alloc(), 512).expect(&rt, "memory");
    for (index, byte) in bytes.iter().enumerate() {
        same_at(rt, index, decoder.feed(&[*byte]), Ok(seen_at(index)));
        if index == 615 {
            same(rt, decoder.page(), PAGE.as_slice());
        }
    }
    same(rt, decoder.post(), ONE_PAGE);
    same(rt, decoder.header().commit, 1);
    same(rt, decoder.finish(), Ok(()));
}

/// A page size past the limit is refused, and so is each piece after it.
#[test]
fn a_fault_is_answered_again(rt: HostRuntime) {
    let bytes = encoding(rt.alloc(), &SNAPSHOT).expect(&rt, "memory");
    let mut decoder = Decoder::new(rt.alloc(), 511).expect(&rt, "memory");
    for _time in 0..2u8 {
        same(rt, decoder.feed(&bytes), Err(LtxFault::PageSize));
    }
    same(rt, decoder.finish(), Err(LtxFault::PageSize));
}

/// The files that the bytes are, read in pieces of this size.
fn read_pieces(rt: &impl Abort, alloc: Global, bytes: &[u8], size: usize) -> Vec<Ltx> {
    let mut reader = FileReader::new(alloc).expect(rt, "memory");
    let mut files = Vec::new(alloc);
    for piece in bytes.chunks(size.max(1)) {
        let mut rest = piece;
        for _byte in piece {
            let Some((file, used)) = reader.feed(rest).expect(rt, "no fault") else {
                break;
            };
            assert!(rt; files.push(file).is_ok());
            rest = rest.get(used..).unwrap_or(&[]);
        }
    }
    assert!(rt; reader.is_between(), "the last file is whole");
    files
}

/// Looks at a file of one page.
fn is_file(rt: &impl Abort, file: &Ltx, fields: &Fields, size: usize) {
    same_at(rt, size, file.header.commit, fields.commit);
    same_at(rt, size, file.header.max, fields.txid);
    same_at(rt, size, file.change.pages().len(), 1);
    same_at(rt, size, file.post, fields.post);
}

/// Looks at the files that were read in pieces of a size.
fn are_both(rt: &impl Abort, files: &[Ltx], size: usize) {
    same_at(rt, size, files.len(), 2);
    for (file, fields) in files.iter().zip(&[SNAPSHOT, DELTA]) {
        is_file(rt, file, fields, size);
    }
}

/// Two files one after another, in pieces of each size.
#[test]
fn files_come_in_pieces(rt: HostRuntime) {
    let mut bytes = encoding(rt.alloc(), &SNAPSHOT).expect(&rt, "memory");
    let delta = encoding(rt.alloc(), &DELTA).expect(&rt, "memory");
    assert!(rt; bytes.extend_from_slice(&delta).is_ok());
    for size in [1usize, 7, 100, bytes.len()] {
        let files = read_pieces(&rt, rt.alloc(), &bytes, size);
        are_both(&rt, files.as_slice(), size);
    }
}
