//! Each row that runs a program is played: it is run, and what it comes to is printed.
ghost use Rattle.std.specs.Prelude.{All, IfOk};
ghost use Rattle.lf_base.specs.Doors.{IsUnused};

use crate::making::{dialing_maker, watched_link};
use crate::playing::{ends, print_watched};
use crate::replies::REPLIES;
use crate::running::{MemHost, host_starting, starter};
use crate::runs::RunRow;
use lf_base::{Handles, MemLink, Watch};
use node_objects::Maker;
use run_child::Told;
use std::alloc::Global;
use std::io::Print;
use std::process::Processes;
use test_base::{Fault, NEVER, one};

/// So many of the seven replies, and others behind them.
fn input_of(alloc: Global, count: usize, odd: &[u8]) -> Result<Vec<u8>, Fault> {
    let mut input = Vec::new(alloc);
    for reply in REPLIES.iter().take(count) {
        input.extend_from_slice(reply)?;
    }
    input.extend_from_slice(odd)?;
    Ok(input)
}

/// The link that a row dials, if it dials one, and what shows what it took.
fn dialed(alloc: Global, row: &RunRow) -> Result<(Vec<MemLink>, Vec<Watch>), Fault>
    ensures { IfOk result (λ made. All IsUnused made.0.items) }
{
    let Some(count) = row.replies else {
        return Ok((Vec::new(alloc), Vec::new(alloc)));
    };
    let input = input_of(alloc, count, row.odd)?;
    let (link, watch) = watched_link(alloc, &input, row.room, row.call)?;
    Ok((one(alloc, link)?, one(alloc, watch)?))
}

/// The words of each program that was started, and what it gave.
fn print_started(rt: &impl Print, started: &[Told]) -> Result<(), Fault> {
    for told in started {
        print!(rt; "    started:")?;
        for word in told.words() {
            print!(rt; " {}", word.as_str())?;
        }
        println!(rt; ", gave {}", told.gave())?;
    }
    Ok(())
}

/// Runs a row, and prints how it ends and what was started.
fn run_row<R: Handles + Processes + Print + Copy + Send + 'static, M: Maker>(
    rt: R,
    alloc: Global,
    row: &RunRow,
    host: &mut MemHost<'_, M>,
) -> Result<(), Fault> {
    print!(&rt; "{}, {}", row.line, row.name)?;
    ends(rt, alloc, row.line, host)?;
    print_started(&rt, host.child.started())
}

/// A run of `run`.
pub fn play_run<R: Handles + Processes + Print + Copy + Send + 'static>(
    rt: R,
    alloc: Global,
    row: &RunRow,
) -> Result<(), Fault> {
    let (links, watches) = dialed(alloc, row)?;
    let make = dialing_maker(alloc, links, NEVER)?;
    let child = starter(alloc, row.gives, row.start)?;
    let mut host = host_starting(alloc, make, child)?;
    run_row(rt, alloc, row, &mut host)?;
    print_watched(&rt, alloc, watches.as_slice())
}
