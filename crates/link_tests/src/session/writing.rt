//! Texts written over a link in memory.
use crate::same::same;
use lf_base::SessionEnd;
use link_session::{Turns, write_whole};
use test_base::link_of;

#[test]
fn a_text_past_the_room_is_a_fault(rt: HostRuntime) {
    let alloc = rt.alloc();
    let mut link = link_of(alloc, b"", 4).expect(&rt, "a link");
    let mut turns = Turns::new(50);
    let watch = link.watch();
    same(rt, write_whole(&mut link, b"", &mut turns), Ok(()));
    same(rt, write_whole(&mut link, b"abc", &mut turns), Ok(()));
    same(
        rt,
        write_whole(&mut link, b"de", &mut turns),
        Err(SessionEnd::WriteFault),
    );
    same(rt, turns.left(), 48);
    let bytes = watch.bytes().expect(&rt, "memory");
    same(rt, bytes.as_slice(), b"abc".as_slice());
}
