//! Bytes that are awaited of a link, each counted.

ghost use Rattle.std.specs.Prelude.{◌≡◌, ◌+◌, ◌<◌, ◌≤◌, length, take, drop, Ok, IfOk, IfErr, OnOk, OnErr};
ghost use Rattle.std.specs.Io.KnownBytes.{Consumes, IsAtEnd, Keeps};
ghost use Rattle.lf_base.specs.Faults.{CountsFaults};
ghost use Rattle.run_child.specs.Filling.{IsFilledPart, end_of};
ghost use Rattle.run_child.specs.Talk.{Heard, place};

use crate::child_end::ChildEnd;
use lf_base::{Failed, Link};

/// Why not all the bytes came that were awaited.
#[derive(Clone, Copy, Debug, PartialEq, Eq)]
pub enum Unfilled {
    /// The input ended.
    Ended,
    /// The link's count of faults rose.
    ReadFault,
    /// No more bytes may be read.
    Turns,
}

impl Unfilled {
    /// The end of a run whose reply did not come whole.
    pub fn end(self) -> ChildEnd
        ensures { result ≡ end_of self }
    {
        match self {
            Unfilled::Ended => ChildEnd::BadMessage,
            Unfilled::ReadFault => ChildEnd::ReadFault,
            Unfilled::Turns => ChildEnd::Turns,
        }
    }
}

/// Reads until `out` is full.
#[tactic(auto, using(crate::proofs::Filled::part_spent, crate::proofs::Filled::part_ended, crate::proofs::Filled::part_failed, crate::proofs::Lists::take_self))]
pub fn fill<L: Link>(link: &mut L, out: &mut [u8], room: &mut u64) -> Result<(), Unfilled>
    ensures size { length out.new ≡ length out.old }
    ensures whole { OnOk result (Heard out.new (place L.Link link.old room.old) (place L.Link link.new room.new) × (L.faults link.new ≡ L.faults link.old)) }
    ensures part { IfErr result (IsFilledPart out.new (place L.Link link.old room.old) (place L.Link link.new room.new)) }
    ensures taken { Keeps (L.taken link.old) (L.taken link.new) }
{
    let mut done = 0;
    while done < out.len() {
        let most = (out.len() - done).min(*room as usize);
        if most == 0 {
            return Err(Unfilled::Turns);
        }
        match read_behind(link, out, done, most) {
            Ok(0) => return Err(Unfilled::Ended),
            Ok(count) => {
                done += count;
                *room -= count as u64;
            }
            Err(_) => return Err(Unfilled::ReadFault),
        }
    }
    Ok(())
}

/// Reads at most `most` bytes behind the first `done` of `out`.
fn read_behind<L: Link>(
    link: &mut L,
    out: &mut [u8],
    done: usize,
    most: usize,
) -> Result<usize, Failed>
    requires within { done + most ≤ length out.old }
    requires some { 0 < most }
    ensures count { IfOk result (λ n. n ≤ most) }
    ensures size { length out.new ≡ length out.old }
    ensures front { take done out.new ≡ take done out.old }
    ensures bytes { IfOk result (λ n. Consumes (L.left link.old) (L.left link.new) (take n (drop done out.new))) }
    ensures end { result ≡ Ok 0 → IsAtEnd (L.left link.new) }
    ensures err { OnErr result (Keeps (L.left link.old) (L.left link.new)) }
    ensures taken { Keeps (L.taken link.old) (L.taken link.new) }
    ensures cause { CountsFaults (L.faults link.old) (L.faults link.new) result }
{
    let (_, rest) = out.split_at_mut(done);
    let (piece, _) = rest.split_at_mut(most);
    link.read(piece)
}
