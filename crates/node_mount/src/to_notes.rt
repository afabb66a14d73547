//! What is noted of a node's lease: endpoints of a cluster that gave no answer, and that it waits.
ghost use Rattle.std.specs.Prelude.{◌≡◌, IfOk};
ghost use Rattle.node_mount.specs.Noting.{no_answer_line as no_answer, waits_line as waits};

use crate::notes::Notes;
use etcd_lease::Noting;
use lf_base::{Handles, NoMemory, Text};
use node_objects::Line;
use std::alloc::Global;

/// Notes each endpoint that was passed over.
#[derive(Drop)]
pub struct ToNotes {
    pub notes: Notes,
}

impl Noting for ToNotes {
    fn passed_over<R: Handles>(&mut self, rt: &R, endpoint: &Text) {
        self.notes.no_answer(rt, endpoint);
    }
}

/// The endpoint at this address gave no answer.
pub fn no_answer_line(alloc: Global, address: &Text) -> Result<Line, NoMemory>
    ensures { IfOk result (λ line. line ≡ no_answer address.now) }
{
    let mut line = Line::of(alloc, b"lease: ")?;
    line.put(address.bytes())?;
    line.put(b" gave no answer")?;
    Ok(line)
}

/// A candidate without a database waits before it asks to be primary.
pub fn waits_line(alloc: Global) -> Result<Line, NoMemory>
    ensures { IfOk result (λ line. line ≡ waits) }
{
    Line::of(
        alloc,
        b"lease: this node has no database: it asks to be primary once nobody has led for three times lease.ttl (lease.bootstrap = true asks at once)",
    )
}
