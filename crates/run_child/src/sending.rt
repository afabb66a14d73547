//! Bytes that are written on a link, all of them or a front.

ghost use Rattle.std.specs.Prelude.{length, OnOk, OnErr};
ghost use Rattle.std.specs.Io.KnownBytes.{Appends, Keeps};
ghost use Rattle.lf_base.specs.Faults.{CountsFaults};
ghost use Rattle.run_child.specs.Talk.{AppendsPart};

use lf_base::{Failed, Link};

/// Writes all the bytes; after a fault a front of them was written, and never all.
pub fn send<L: Link>(link: &mut L, bytes: &[u8]) -> Result<(), Failed>
    ensures whole { OnOk result (Appends (L.taken link.old) (L.taken link.new) bytes.now) }
    ensures part { OnErr result (AppendsPart (L.taken link.old) (L.taken link.new) bytes.now) }
    ensures left { Keeps (L.left link.old) (L.left link.new) }
    ensures cause { CountsFaults (L.faults link.old) (L.faults link.new) result }
{
    let mut done = 0;
    while done < bytes.len() {
        let (_, rest) = bytes.split_at(done);
        match link.write(rest) {
            Ok(count) => done += count,
            Err(failed) => return Err(failed),
        }
    }
    Ok(())
}
