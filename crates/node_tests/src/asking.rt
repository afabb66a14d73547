//! What a maker was asked for, in words.
use node_objects::{Asked, Wanted};
use std::process::Abort;

/// What was asked for at this place of a list, 'd' a data directory, 'f' file links, 'h' HTTP links, 'm' what mounts the files at
/// a folder, and whether it was given.
pub fn asked_at<R: Copy + Abort>(rt: R, asked: &[Asked], at: usize) -> (char, &str, bool) {
    let asked = asked.get(at).expect(&rt, "asked for");
    match &asked.wanted {
        Wanted::Disk(name) => ('d', text_of(rt, name.bytes()), asked.given),
        Wanted::Files(path) => ('f', path.as_str(), asked.given),
        Wanted::Http(address) => ('h', address.as_str(), asked.given),
        Wanted::Mount(call) => ('m', call.dir.as_str(), asked.given),
    }
}

fn text_of<R: Copy + Abort>(rt: R, bytes: &[u8]) -> &str {
    str::from_utf8(bytes).expect(&rt, "text")
}
