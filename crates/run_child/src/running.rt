//! A run: the lock, the program, the end of the session.

ghost use Rattle.std.specs.Prelude.{ℕ};
ghost use Rattle.run_child.specs.Course.{Ends, StartsUnder};
ghost use Rattle.run_child.specs.Starts.{Tries, book};
ghost use Rattle.run_child.specs.Talk.{place};

use crate::child_end::ChildEnd;
use crate::closing::close;
use crate::lock::take_halt;
use crate::starter::Starter;
use lf_base::{Link, Name, Text};
use std::alloc::Global;
use std::process::Processes;

/// What is run: the program of these words, under the lock of this database. At most `budget` bytes of the link are
/// read.
#[derive(Clone, Copy)]
pub struct Run<'a> {
    pub name: &'a Name,
    pub words: &'a [Text],
    pub budget: u64,
}

/// Starts the program while it holds the HALT lock of the database at the node behind the link.
pub fn run_child<R: Processes, L: Link, S: Starter>(
    alloc: Global,
    rt: &R,
    link: &mut L,
    starter: &mut S,
    run: Run<'_>,
) -> ChildEnd
    // The starter may be asked where the lock is granted, and is asked nowhere else.
    requires { StartsUnder run.name.now (place L.Link link.old run.budget) (S.may_start starter.old) }
    // The program is started once at most, with these words, and only behind the grant of the lock; each end
    // has its cause.
    ensures ends { (room : ℕ) × Ends run.entry.name.now run.entry.words.now (place L.Link link.old run.entry.budget) (place L.Link link.new room)
        (book S.Starter starter.old) (book S.Starter starter.new) result }
{
    let mut room = run.budget;
    let closing = match take_halt(alloc, link, run.name, &mut room) {
        Ok(closing) => closing,
        Err(end) => return end,
    };
    let end = start(rt, &*link, starter, run.words);
    close(link, &closing, &mut room);
    end
}

/// Starts the program, while the link stands as it is.
fn start<R: Processes, L: Link, S: Starter>(
    rt: &R,
    link: &L,
    starter: &mut S,
    words: &[Text],
) -> ChildEnd
    requires { S.may_start starter.old (L.taken link.now) }
    ensures { Tries words.now (book S.Starter starter.old) (book S.Starter starter.new) result }
{
    match starter.start(rt, link, words) {
        Ok(status) => ChildEnd::Ended(status),
        Err(_) => ChildEnd::NotStarted,
    }
}
