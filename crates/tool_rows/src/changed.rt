//! LTX files of which one byte was changed are applied.

use crate::making::empty_maker;
use crate::playing::ends;
use crate::running::host_over;
use lf_base::{Handles, SliceSource};
use node_objects::MemMaker;
use std::alloc::Global;
use std::fs;
use std::io::Print;
use std::process::Processes;
use std::rt::Files;
use test_base::Fault;

/// A file, and the place and the value of the byte that was changed.
type Changed = (&'static str, usize, u8);

/// In each field, and in the pages.
const CHANGED: &[Changed] = &[
    ("snapshot.ltx", 3, b'2'),
    ("snapshot.ltx", 7, 1),
    ("snapshot.ltx", 7, 2),
    ("snapshot.ltx", 10, 3),
    ("snapshot.ltx", 12, 127),
    ("snapshot.ltx", 23, 0),
    ("snapshot.ltx", 40, 1),
    ("compacted.ltx", 619, 1),
    ("compacted.ltx", 619, 3),
    ("snapshot.ltx", 15, 2),
    ("snapshot.ltx", 104, 1),
    ("snapshot.ltx", 635, 0x31),
];

/// Applies these bytes, and prints how it ends.
fn applies<R: Handles + Processes + Print + Copy + Send + 'static>(
    rt: R,
    alloc: Global,
    bytes: &[u8],
    make: MemMaker,
) -> Result<(), Fault> {
    let config = SliceSource::new(b"", Vec::new(alloc)).unwrap();
    let mut host = host_over(alloc, bytes, config, make)?;
    ends(rt, alloc, "litefs apply", &mut host)
}

fn play_one<R: Handles + Processes + Files + Print + AllocGlobal + Copy + Send + 'static>(
    rt: R,
    changed: &Changed,
) -> Result<(), Fault> {
    let (name, at, byte) = *changed;
    let mut file = fs::read(&rt, name)?;
    if let Some(place) = file.get_mut(at) {
        *place = byte;
    }
    print!(&rt; "litefs apply, {name} with byte {at} as {byte}")?;
    applies(rt, rt.alloc(), &file, empty_maker(rt.alloc())?)
}

/// The runs of `apply` on them.
pub fn play_changed<R: Handles + Processes + Files + Print + AllocGlobal + Copy + Send + 'static>(
    rt: R,
) -> Result<(), Fault> {
    for changed in CHANGED {
        play_one(rt, changed)?;
    }
    Ok(())
}
