//! The command that runs a program under the lock of a database.
ghost use Rattle.std.specs.Prelude.{◌≡◌};
ghost use Rattle.node_objects.specs.declared.counts.Counts.{Counts};
ghost use Rattle.node_objects.specs.Making.{NetworkRose, TellsBy};
ghost use Rattle.run_child.specs.Starts.{book};
ghost use Rattle.litefs_tool.specs.Running.{ChildBack, RanBy};
ghost use Rattle.litefs_tool.specs.steps.Performing.{GoesRunning};

use crate::failure::Failure;
use crate::task::Task;
use lf_base::{Dialer, Failed, Handles};
use node_objects::Maker;
use run_child::{ChildEnd, ReadyStarter, Run, run_child};
use std::alloc::Global;
use std::process::Processes;

/// How many bytes of a link are read at most.
const BYTE_LIMIT: u64 = 1_099_511_627_776;

/// A dial and the reads of its link wait for as long as it takes: the lock may be another's.
const PATIENCE: u64 = 0;

/// Runs a program under the lock of a database. It ends as the program does.
pub(crate) fn run_task<R: Handles + Processes, M: Maker, S: ReadyStarter>(
    rt: &R,
    alloc: Global,
    task: Task,
    make: &mut M,
    child: &mut S,
) -> Result<(), Failure>
    ensures { GoesRunning (ChildBack M.Line.Link M.Dial.dials (M.back make.old) (M.back make.new) (M.counts make.old) (M.counts make.new)
        (book S.Starter child.old) (book S.Starter child.new) task) result }
{
    match run_under(rt, alloc, &task, make, child) {
        Ok(end) => Err(Failure::Child(end)),
        Err(_) => Err(Failure::Undialed),
    }
}

/// Runs it by a dialer that then goes back to its maker.
fn run_under<R: Handles + Processes, M: Maker, S: ReadyStarter>(
    rt: &R,
    alloc: Global,
    task: &Task,
    make: &mut M,
    child: &mut S,
) -> Result<ChildEnd, Failed>
    ensures { ChildBack M.Line.Link M.Dial.dials (M.back make.old) (M.back make.new) (M.counts make.old) (M.counts make.new) (book S.Starter child.old) (book S.Starter child.new) task.now result }
{
    let mut dialer = make.dialer(PATIENCE);
    let end = run_dialed(rt, alloc, task, &mut dialer, child);
    make.back_dial(dialer);
    end
}

/// Runs it over a link of one dial.
fn run_dialed<R: Handles + Processes, T: Dialer, S: ReadyStarter>(
    rt: &R,
    alloc: Global,
    task: &Task,
    dialer: &mut T,
    child: &mut S,
) -> Result<ChildEnd, Failed>
    ensures { (counts counts_after : Counts) → TellsBy NetworkRose (T.faults dialer.new) counts counts_after → T.faults dialer.old ≡ 0
        → RanBy T.L.Link T.dials task.now dialer.old dialer.new counts counts_after (book S.Starter child.old) (book S.Starter child.new) result }
{
    let mut link = match dialer.dial(rt, &task.address) {
        Ok(link) => link,
        Err(failed) => return Err(failed),
    };
    let words = task.words.as_slice();
    let run = Run {
        name: &task.name,
        words,
        budget: BYTE_LIMIT,
    };
    let end = run_child(alloc, rt, &mut link, child, run);
    dialer.hang_up(link);
    Ok(end)
}
