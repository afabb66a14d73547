//! A run over memory.

use lf_base::{Handles, Sink, SliceSource, Source, Status, Text, VecSink};
use litefs_tool::{Host, run};
use node_objects::Maker;
use run_child::{ListStarter, ReadyStarter};
use std::alloc::Global;
use std::process::Processes;
use test_base::{Fault, one};

/// What a run reads from, writes to, and says its failure on.
pub type MemHost<'a, M> = Host<SliceSource<'a>, VecSink, VecSink, SliceSource<'a>, M, ListStarter>;

/// The words behind the name of the program.
fn arguments_of(alloc: Global, line: &str) -> Result<Vec<Text>, Fault> {
    let mut arguments = Vec::new(alloc);
    for word in line.split_whitespace().skip(1) {
        arguments.push(Text::of(alloc, word)?)?;
    }
    Ok(arguments)
}

/// Runs `litefs` by this command line.
pub fn run_line<
    R: Handles + Processes + Copy + Send + 'static,
    I: Source,
    O: Sink,
    E: Sink,
    G: Source,
    M: Maker,
    S: ReadyStarter,
>(rt: R, alloc: Global, line: &str, host: &mut Host<I, O, E, G, M, S>) -> Result<Status, Fault> {
    let arguments = arguments_of(alloc, line)?;
    Ok(run(rt, alloc, arguments.as_slice(), host))
}

/// What a run writes to, and what it says its failure on.
fn sinks(alloc: Global) -> Result<(VecSink, VecSink), Fault> {
    let output = VecSink::new(alloc, 4_096, Vec::new(alloc))?;
    let errors = VecSink::new(alloc, 256, Vec::new(alloc))?;
    Ok((output, errors))
}

/// A host over this input, this configuration and this maker.
pub fn host_over<'a, M: Drop>(
    alloc: Global,
    input: &'a [u8],
    config: SliceSource<'a>,
    make: M,
) -> Result<MemHost<'a, M>, Fault> {
    let input = SliceSource::new(input, Vec::new(alloc)).unwrap();
    let output = VecSink::new(alloc, 4_096, Vec::new(alloc))?;
    host_failing(alloc, input, config, output, make)
}

/// What starts programs: they give these statuses, and the start of this number fails.
pub fn starter(alloc: Global, gives: &[u8], failing: u64) -> Result<ListStarter, Fault> {
    let gives = Vec::from_slice(alloc, gives)?;
    Ok(ListStarter::new(alloc, gives, one(alloc, failing)?)?)
}

/// A host over this input, room for so many bytes of output and this maker, without a configuration.
pub fn host_with<'a, M: Drop>(
    alloc: Global,
    input: SliceSource<'a>,
    room: usize,
    make: M,
) -> Result<MemHost<'a, M>, Fault> {
    let output = VecSink::new(alloc, room, Vec::new(alloc))?;
    let config = SliceSource::new(b"", Vec::new(alloc)).unwrap();
    host_failing(alloc, input, config, output, make)
}

/// A host over these streams and this maker.
pub fn host_failing<'a, M: Drop>(
    alloc: Global,
    input: SliceSource<'a>,
    config: SliceSource<'a>,
    output: VecSink,
    make: M,
) -> Result<MemHost<'a, M>, Fault> {
    Ok(Host {
        input,
        output,
        errors: VecSink::new(alloc, 256, Vec::new(alloc))?,
        config,
        make,
        child: starter(alloc, b"", u64::MAX)?,
    })
}

/// A host over this maker and this starter, whose streams nobody moves.
pub fn host_starting<'a, M: Drop>(
    alloc: Global,
    make: M,
    child: ListStarter,
) -> Result<MemHost<'a, M>, Fault> {
    let (output, errors) = sinks(alloc)?;
    Ok(Host {
        input: SliceSource::new(b"left alone", Vec::new(alloc)).unwrap(),
        output,
        errors,
        config: SliceSource::new(b"", Vec::new(alloc)).unwrap(),
        make,
        child,
    })
}
