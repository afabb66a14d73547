//! A node over memory whose files are mounted by a program.
use crate::asking::asked_at;
use crate::mounted::{PRIMARY, STARTED, empty_disk, no_links, one_spawner, primary_over};
use crate::same::same;
use lf_base::{Errno, SliceSource};
use node_mount::mount;
use node_objects::{MemMaker, MemProgram, ProgramEnd};
use std::alloc::Global;
use std::net::{TcpListener, TcpStream};
use std::process::Abort;

/// What stands in front of a primary's configuration, what becomes of its program at the one look that is made, and
/// what is told of it.
const ROWS: &[(&str, MemProgram, &str)] = &[
    (
        "fuse.dir = \"m\"\n",
        MemProgram::Runs,
        "litefs: mount at m by litefs-fuse: started\n",
    ),
    (
        "fuse.dir = \"/mnt/a\\tb\"\nfuse.program = \"./p\"\n",
        MemProgram::Ends(ProgramEnd::Status(7)),
        "litefs: mount at /mnt/a b by ./p: started\n",
    ),
    (
        "fuse.dir = \"m\"\n",
        MemProgram::Fails(Some(Errno(2))),
        "litefs: mount at m by litefs-fuse: cannot start: no such file or directory, errno 002\n",
    ),
    (
        "fuse.program = \"p\"\nfuse.dir = \"m\"\n",
        MemProgram::Fails(None),
        "litefs: mount at m by p: cannot start\n",
    ),
    ("", MemProgram::Fails(None), ""),
];

fn maker(rt: impl Copy + Abort, alloc: Global) -> MemMaker {
    let (files, http) = (no_links(rt, alloc), no_links(rt, alloc));
    let disks = empty_disk(rt, alloc);
    primary_over(rt, alloc, disks, files, http, one_spawner(rt, alloc))
}

/// The program is started where the configuration names a folder, and the maker is asked for it last.
#[test]
fn programs_are_started(rt: HostRuntime) {
    let _named: Option<(TcpListener, TcpStream)> = None;
    let alloc = rt.alloc();
    for (keys, program, line) in ROWS {
        let mut maker = maker(rt, alloc);
        maker.set_program(*program);
        let mut text = Vec::from_slice(alloc, keys.as_bytes()).expect(&rt, "memory");
        text.extend_from_slice(PRIMARY).expect(&rt, "memory");
        let source = SliceSource::new(text.as_slice(), Vec::new(alloc));
        let mut config = source.expect(&rt, "a source");
        same(rt, mount(rt, alloc, &mut config, &mut maker), Ok(()));
        let mut wanted = Vec::from_slice(alloc, STARTED).expect(&rt, "memory");
        wanted
            .extend_from_slice(line.as_bytes())
            .expect(&rt, "memory");
        let told = maker.lines().expect(&rt, "memory").bytes(&rt, alloc);
        same(rt, told.expect(&rt, "memory").as_slice(), wanted.as_slice());
        let asked = maker.asked().expect(&rt, "told");
        same(rt, asked.len(), if line.is_empty() { 3 } else { 4 });
        if !line.is_empty() {
            let (what, _, given) = asked_at(rt, asked, 3);
            same(rt, (what, given), ('m', true));
        }
    }
}
