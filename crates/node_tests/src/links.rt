//! A link in memory, as a row of a table says it.
use lf_base::MemLink;
use std::alloc::Global;
use std::process::Abort;
use test_base::link_in_pieces;

/// A link from which `input` comes, at most `size` bytes a read. The call of the number `failing` fails.
pub fn link_of(
    rt: impl Copy + Abort,
    alloc: Global,
    input: &[u8],
    size: usize,
    failing: u64,
) -> MemLink {
    link_in_pieces(alloc, input, 4096, failing, size).expect(&rt, "a link")
}
