//! The two pages of a database with one table (SQLite file format, sections 1.3, 1.6 and 2.1).

use std::alloc::Global;
use std::process::Abort;

/// The row of the schema: its length and number, the types of its columns, and these.
const SCHEMA: &[u8; 56] =
    b"\x36\x01\x06\x17\x0f\x0f\x01\x5dtablett\x02CREATE TABLE t(a integer primary key, b)";

/// A row of the table, and two of them, of which the last comes first.
const ONE_ROW: &[u8; 10] = b"\x08\x01\x03\x00\x17row 0";

const TWO_ROWS: &[u8; 20] = b"\x08\x02\x03\x00\x17row 1\x08\x01\x03\x00\x17row 0";

/// The lowest two bytes of a number, big-endian.
fn two_bytes(number: usize) -> [u8; 2] {
    let [_, _, _, _, _, _, high, low] = (number as u64).to_be_bytes();
    [high, low]
}

/// Adds bytes.
pub fn put<R: Copy + Abort>(rt: R, page: &mut Vec<u8>, bytes: &[u8]) {
    page.extend_from_slice(bytes).expect(&rt, "memory");
}

/// Adds zeros up to a place.
fn fill<R: Copy + Abort>(rt: R, page: &mut Vec<u8>, to: usize) {
    page.resize(to, 0).expect(&rt, "memory");
}

/// Adds the head of a table's leaf, says how far before the page's end each row begins, and fills the
/// page up to the rows.
fn put_leaf<R: Copy + Abort>(
    rt: R,
    page: &mut Vec<u8>,
    size: usize,
    distances: &[usize],
    rows: &[u8],
) {
    let rows_at = size.saturating_sub(rows.len());
    put(rt, page, &[13, 0, 0]);
    put(rt, page, &two_bytes(distances.len()));
    put(rt, page, &two_bytes(rows_at));
    put(rt, page, &[0]);
    for distance in distances {
        put(rt, page, &two_bytes(size.saturating_sub(*distance)));
    }
    fill(rt, page, rows_at);
    put(rt, page, rows);
}

/// Adds a number of four bytes at a place; zeros come before it.
fn put_number<R: Copy + Abort>(rt: R, page: &mut Vec<u8>, at: usize, number: u32) {
    fill(rt, page, at);
    put(rt, page, &number.to_be_bytes());
}

/// Page 1: the header of the database file, and the schema of one table.
pub fn first_page<R: Copy + Abort>(rt: R, alloc: Global, size: usize) -> Vec<u8> {
    let stated_size = if size == 65536 { 1 } else { size };
    let mut page = Vec::new(alloc);
    put(rt, &mut page, b"SQLite format 3\0");
    put(rt, &mut page, &two_bytes(stated_size));
    put(rt, &mut page, &[2, 2, 0, 64, 32, 32]);
    // The change counter, the number of pages, and the schema's change number and format; the text
    // encoding, the change counter once more, and the version of SQLite.
    for (at, number) in [
        (24, 2),
        (28, 2),
        (40, 1),
        (44, 4),
        (56, 1),
        (92, 2),
        (96, 3_040_001),
    ] {
        put_number(rt, &mut page, at, number);
    }
    put_leaf(rt, &mut page, size, &[56], SCHEMA);
    page
}

/// Page 2 with so many rows of the table, at most two.
pub fn second_page<R: Copy + Abort>(rt: R, alloc: Global, size: usize, rows: usize) -> Vec<u8> {
    let mut page = Vec::new(alloc);
    match rows {
        0 => put_leaf(rt, &mut page, size, &[], &[]),
        1 => put_leaf(rt, &mut page, size, &[10], ONE_ROW),
        _ => put_leaf(rt, &mut page, size, &[10, 20], TWO_ROWS),
    }
    page
}
