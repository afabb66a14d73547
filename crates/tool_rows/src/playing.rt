//! Each row is played: it is run, and what it comes to is printed.

use crate::commands::CommandRow;
use crate::leases::LeaseRow;
use crate::lines::{print_end, print_line, print_output, print_taken};
use crate::making::{Links, empty_maker, maker_of, service_of};
use crate::nodes::NodeRow;
use crate::running::{MemHost, host_over, run_line};
use lf_base::{Handles, SliceSource, Watch};
use node_objects::Maker;
use std::alloc::Global;
use std::fs;
use std::io::Print;
use std::process::Processes;
use std::rt::Files;
use test_base::{Fault, one};

/// The input of a row.
fn input_of<R: Files + AllocGlobal>(rt: &R, row: &CommandRow) -> Result<Vec<u8>, Fault> {
    let mut input = Vec::new(rt.alloc());
    for (name, most) in row.input {
        let file = fs::read(rt, *name)?;
        let (front, _) = file.split_at(file.len().min(*most));
        input.extend_from_slice(front)?;
    }
    Ok(input)
}

/// Runs a command line, and prints how it ends.
pub fn ends<R: Handles + Processes + Print + Copy + Send + 'static, M: Maker>(
    rt: R,
    alloc: Global,
    line: &str,
    host: &mut MemHost<'_, M>,
) -> Result<(), Fault> {
    let status = run_line(rt, alloc, line, host)?;
    print_end(&rt, status, host.errors.taken())
}

/// Runs a command line of this name, and prints how it ends and what it wrote.
pub fn run_named<R: Handles + Processes + Print + Copy + Send + 'static, M: Maker>(
    rt: R,
    alloc: Global,
    line: &str,
    name: &str,
    host: &mut MemHost<'_, M>,
) -> Result<(), Fault> {
    print!(&rt; "{line}, {name}")?;
    ends(rt, alloc, line, host)?;
    print_output(&rt, alloc, host.output.taken())
}

/// Runs a row, and prints how it ends and what it wrote.
fn run_command<R: Handles + Processes + Print + Copy + Send + 'static, M: Maker>(
    rt: R,
    alloc: Global,
    row: &CommandRow,
    host: &mut MemHost<'_, M>,
) -> Result<(), Fault> {
    print_line(&rt, row)?;
    ends(rt, alloc, row.line, host)?;
    print_output(&rt, alloc, host.output.taken())
}

/// A row over its input.
fn play_over<R: Handles + Processes + Print + Copy + Send + 'static, M: Maker + Drop>(
    rt: R,
    alloc: Global,
    row: &CommandRow,
    input: &[u8],
    make: M,
) -> Result<(), Fault> {
    let config = SliceSource::new(b"", Vec::new(alloc)).unwrap();
    let mut host = host_over(alloc, input, config, make)?;
    run_command(rt, alloc, row, &mut host)
}

/// A run of `apply` or `compact`, or of words that are no command.
pub fn play_command<R: Handles + Processes + Files + Print + AllocGlobal + Copy + Send + 'static>(
    rt: R,
    row: &CommandRow,
) -> Result<(), Fault> {
    let input = input_of(&rt, row)?;
    let make = empty_maker(rt.alloc())?;
    play_over(rt, rt.alloc(), row, &input, make)
}

/// A node or a lease service by this configuration: it is run, and how it ends is printed.
fn play_configured<R: Handles + Processes + Print + Copy + Send + 'static, M: Maker + Drop>(
    rt: R,
    alloc: Global,
    line: &str,
    name: &str,
    config: SliceSource<'_>,
    make: M,
) -> Result<(), Fault> {
    let mut host = host_over(alloc, b"left alone", config, make)?;
    print!(&rt; "{line}, {name}")?;
    ends(rt, alloc, line, &mut host)
}

/// Prints what the two links of a node took.
fn print_links(rt: &impl Print, alloc: Global, links: &Links) -> Result<(), Fault> {
    print_taken(rt, alloc, "file link", &links.files.bytes()?)?;
    print_taken(rt, alloc, "HTTP link", &links.http.bytes()?)
}

/// A run of `mount`, over a disk with this file.
pub fn play_node<R: Handles + Processes + Print + Copy + Send + 'static>(
    rt: R,
    alloc: Global,
    row: &NodeRow,
    file: &[u8],
) -> Result<(), Fault> {
    let (make, links) = maker_of(alloc, row, file)?;
    let config = SliceSource::new(row.config, one(alloc, row.read)?).unwrap();
    play_configured(rt, alloc, "litefs mount", row.name, config, make)?;
    print_links(&rt, alloc, &links)
}

/// Prints what each link took.
pub fn print_watched(rt: &impl Print, alloc: Global, watches: &[Watch]) -> Result<(), Fault> {
    for watch in watches {
        print_taken(rt, alloc, "link", &watch.bytes()?)?;
    }
    Ok(())
}

/// A run of `lease`.
pub fn play_lease<R: Handles + Processes + Print + Copy + Send + 'static>(
    rt: R,
    alloc: Global,
    row: &LeaseRow,
) -> Result<(), Fault> {
    let (make, watches) = service_of(alloc, row)?;
    let config = SliceSource::new(row.config, one(alloc, row.read)?).unwrap();
    play_configured(rt, alloc, "litefs lease", row.name, config, make)?;
    print_watched(&rt, alloc, watches.as_slice())
}
