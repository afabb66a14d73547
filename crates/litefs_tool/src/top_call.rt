//! The top call.
ghost use Rattle.std.specs.Prelude.{◌≡◌};
ghost use Rattle.http_exchange.specs.Exchange.{LinksTell};
ghost use Rattle.litefs_tool.specs.Asking.{AskBacks, DialerBack};
ghost use Rattle.litefs_tool.specs.Disks.{folders_of, BackedUpBack, RestoredBack};
ghost use Rattle.litefs_tool.specs.Mount.{GoesBack};
ghost use Rattle.litefs_tool.specs.Run.{Backs, CommandOutcome, LeavesApart, Outside, Run, RunOutcome};
ghost use Rattle.litefs_tool.specs.Streams.{stream};
ghost use Rattle.litefs_tool.specs.steps.Performing.{Goes, Leases, Mounts, Performs};
ghost use Rattle.litefs_tool.specs.Running.{ChildBack};
ghost use Rattle.node_mount.specs.LeaseService.{LeasesBack, ServesTold};
ghost use Rattle.run_child.specs.Starts.{book};

use crate::applying::Applying;
use crate::asking::{export, import};
use crate::backing::{back_up, restore};
use crate::command::{Command, read_arguments};
use crate::compaction::one_file;
use crate::drilling::drill;
use crate::failure::Failure;
use crate::file_output::write_file;
use crate::gathering::Gathering;
use crate::input::{INPUT_LIMIT, read_to_end};
use crate::output::{new_buffer, write_image};
use crate::report::report;
use crate::running::run_task;
use lf_base::{Handles, Sink, Source, Status, Text};
use node_mount::{mount, serve_leases};
use node_objects::Maker;
use run_child::ReadyStarter;
use std::alloc::Global;
use std::process::Processes;

/// What a run of the program reads from, writes to, and says its failure on; for a node or a lease
/// service its configuration, and what makes the objects that it runs on, or asks a node by; and what
/// starts the program that it runs.
#[derive(Drop)]
pub struct Host<I, O, E, G, M, S> {
    pub input: I,
    pub output: O,
    pub errors: E,
    pub config: G,
    pub make: M,
    pub child: S,
}

/// Runs the command of these arguments, and says on standard error why it failed, if it did.
pub fn run<
    R: Handles + Processes + Copy + Send + 'static,
    I: Source,
    O: Sink,
    E: Sink,
    G: Source,
    M: Maker,
    S: ReadyStarter,
>(rt: R, alloc: Global, arguments: &[Text], host: &mut Host<I, O, E, G, M, S>) -> Status
    ensures outcome { let run : Run = record {
      arguments = arguments.now;
      outside = record {
        input = stream I.left I.faults host.old.input host.new.input;
        output = stream O.taken O.faults host.old.output host.new.output;
        config = stream G.left G.faults host.old.config host.new.config;
        counts = M.counts host.old.make;
        counts_after = M.counts host.new.make;
        starts = book S.Starter host.old.child;
        starts_after = book S.Starter host.new.child;
      };
      errors = stream E.taken E.faults host.old.errors host.new.errors;
    } in
        let backs : Backs = record {
          node = GoesBack M.FileAccept.ended M.FileAccept.given M.Disk.honest M.Disk.history (M.may_give host.old.make) (M.back host.old.make) (M.back host.new.make);
          service = LeasesBack M.HttpAccept.ended M.HttpAccept.given (ServesTold M.HttpAccept.L.Link (G.left host.old.config) (G.left host.new.config)) (M.back host.old.make) (M.back host.new.make);
          asks = record {
            asked = DialerBack M.Dial.dials (LinksTell M.Line.given M.Line.taken) (M.back host.old.make) (M.back host.new.make);
            nothing = M.back host.new.make ≡ M.back host.old.make;
          };
          disks = record {
            nothing = (M.back host.new.make ≡ M.back host.old.make) × (M.asked host.new.make ≡ M.asked host.old.make);
            restored = λ database. RestoredBack M.asked M.may_give M.Disk.honest M.Disk.history M.back host.old.make host.new.make (folders_of database);
            backed_up = λ remote. BackedUpBack M.asked M.may_give M.Disk.honest M.Disk.history M.Dial.dials
                (LinksTell M.Line.given M.Line.taken) M.back host.old.make host.new.make remote.address remote.name;
          };
          child = ChildBack M.Line.Link M.Dial.dials (M.back host.old.make) (M.back host.new.make) (M.counts host.old.make) (M.counts host.new.make)
              (book S.Starter host.old.child) (book S.Starter host.new.child);
        } in RunOutcome backs run result }
    ensures apart { LeavesApart arguments.now host.old.input host.new.input host.old.output host.new.output host.old.config host.new.config host.old.make host.new.make host.old.child host.new.child }
{
    match perform(rt, alloc, arguments, host) {
        Ok(()) => Status::Ok,
        Err(failure) => {
            // A fault of standard error changes nothing.
            let _ = report(&mut host.errors, failure);
            failure.status()
        }
    }
}

/// Performs the command of these arguments. Standard error stays as it was.
fn perform<
    R: Handles + Processes + Copy + Send + 'static,
    I: Source,
    O: Sink,
    E: Sink,
    G: Source,
    M: Maker,
    S: ReadyStarter,
>(
    rt: R,
    alloc: Global,
    arguments: &[Text],
    host: &mut Host<I, O, E, G, M, S>,
) -> Result<(), Failure>
    ensures went { let outside : Outside = record {
      input = stream I.left I.faults host.old.input host.new.input;
      output = stream O.taken O.faults host.old.output host.new.output;
      config = stream G.left G.faults host.old.config host.new.config;
      counts = M.counts host.old.make;
      counts_after = M.counts host.new.make;
      starts = book S.Starter host.old.child;
      starts_after = book S.Starter host.new.child;
    } in
        let backs : Backs = record {
          node = GoesBack M.FileAccept.ended M.FileAccept.given M.Disk.honest M.Disk.history (M.may_give host.old.make) (M.back host.old.make) (M.back host.new.make);
          service = LeasesBack M.HttpAccept.ended M.HttpAccept.given (ServesTold M.HttpAccept.L.Link (G.left host.old.config) (G.left host.new.config)) (M.back host.old.make) (M.back host.new.make);
          asks = record {
            asked = DialerBack M.Dial.dials (LinksTell M.Line.given M.Line.taken) (M.back host.old.make) (M.back host.new.make);
            nothing = M.back host.new.make ≡ M.back host.old.make;
          };
          disks = record {
            nothing = (M.back host.new.make ≡ M.back host.old.make) × (M.asked host.new.make ≡ M.asked host.old.make);
            restored = λ database. RestoredBack M.asked M.may_give M.Disk.honest M.Disk.history M.back host.old.make host.new.make (folders_of database);
            backed_up = λ remote. BackedUpBack M.asked M.may_give M.Disk.honest M.Disk.history M.Dial.dials
                (LinksTell M.Line.given M.Line.taken) M.back host.old.make host.new.make remote.address remote.name;
          };
          child = ChildBack M.Line.Link M.Dial.dials (M.back host.old.make) (M.back host.new.make) (M.counts host.old.make) (M.counts host.new.make)
              (book S.Starter host.old.child) (book S.Starter host.new.child);
        } in Goes backs arguments.now outside result }
    ensures apart { LeavesApart arguments.now host.old.input host.new.input host.old.output host.new.output host.old.config host.new.config host.old.make host.new.make host.old.child host.new.child }
    ensures quiet { host.new.errors ≡ host.old.errors }
{
    match read_arguments(alloc, arguments)? {
        Some(Command::Apply) => apply(alloc, &mut host.input, &mut host.output),
        Some(Command::Compact) => compact(alloc, &mut host.input, &mut host.output),
        Some(Command::Mount) => mount_node(rt, alloc, &mut host.config, &mut host.make),
        Some(Command::Lease) => lease(&rt, alloc, &mut host.config, &mut host.make),
        Some(Command::Export(remote)) => export(
            &rt,
            alloc,
            remote,
            &mut host.output,
            &mut host.make,
        ),
        Some(Command::Import(remote)) => import(
            &rt,
            alloc,
            remote,
            &mut host.input,
            &mut host.output,
            &mut host.make,
        ),
        Some(Command::Backup(remote)) => back_up(
            &rt,
            alloc,
            remote,
            &mut host.output,
            &mut host.make,
        ),
        Some(Command::Restore { name, txid }) => restore(
            alloc,
            name,
            txid,
            &mut host.output,
            &mut host.make,
        ),
        Some(Command::Drill(number)) => drill(alloc, number, &mut host.output),
        Some(Command::Run(task)) => run_task(&rt, alloc, task, &mut host.make, &mut host.child),
        None => Err(Failure::Arguments),
    }
}

/// A node serves the files of a database, until no more links come.
fn mount_node<R: Handles + Copy + Send + 'static, G: Source, M: Maker>(
    rt: R,
    alloc: Global,
    config: &mut G,
    make: &mut M,
) -> Result<(), Failure>
    ensures { Mounts (GoesBack M.FileAccept.ended M.FileAccept.given M.Disk.honest M.Disk.history (M.may_give make.old) (M.back make.old) (M.back make.new))
        (stream G.left G.faults config.old config.new) (M.counts make.old) (M.counts make.new) result }
{
    match mount(rt, alloc, config, make) {
        Ok(()) => Ok(()),
        Err(fault) => Err(Failure::Mount(fault)),
    }
}

/// Leases are granted to nodes, until no more links come.
fn lease<R: Handles, G: Source, M: Maker>(
    rt: &R,
    alloc: Global,
    config: &mut G,
    make: &mut M,
) -> Result<(), Failure>
    ensures { Leases (LeasesBack M.HttpAccept.ended M.HttpAccept.given (ServesTold M.HttpAccept.L.Link (G.left config.old) (G.left config.new)) (M.back make.old)
        (M.back make.new)) (stream G.left G.faults config.old config.new) (M.counts make.old) (M.counts make.new) result }
{
    match serve_leases(rt, alloc, config, make) {
        Ok(()) => Ok(()),
        Err(fault) => Err(Failure::Mount(fault)),
    }
}

/// LTX files on the input become the database's bytes on the output. All of it is read and decided
/// before the first byte is written.
fn apply<I: Source, O: Sink>(alloc: Global, input: &mut I, output: &mut O) -> Result<(), Failure>
    ensures { Performs (CommandOutcome Command.Apply) (stream I.left I.faults input.old input.new) (stream O.taken O.faults output.old output.new) result }
{
    let applying = read_to_end(alloc, input, INPUT_LIMIT, Applying::new(alloc)?)?;
    let image = applying.finish()?;
    let mut buffer = new_buffer(alloc)?;
    write_image(output, &image, &mut buffer)?;
    Ok(())
}

/// LTX files on the input become one on the output. All of it is read and decided before the first
/// byte is written.
fn compact<I: Source, O: Sink>(alloc: Global, input: &mut I, output: &mut O) -> Result<(), Failure>
    ensures { Performs (CommandOutcome Command.Compact) (stream I.left I.faults input.old input.new) (stream O.taken O.faults output.old output.new) result }
{
    let gathering = read_to_end(alloc, input, INPUT_LIMIT, Gathering::new(alloc)?)?;
    let file = one_file(alloc, gathering.finish()?)?;
    let mut buffer = new_buffer(alloc)?;
    write_file(output, &file, &mut buffer)?;
    Ok(())
}
