//! Rows of the store: calls on stores in memory and in a folder, stopped, crashed and recovered. It
//! prints what it sees, and the gate compares that.
#![tactic(auto)]

mod answers;
mod copies;
mod damaged;
mod drills;
mod folders;
mod given;
mod into;
mod primaries;
mod recoveries;
mod refusals;
mod samples;
mod scenes;
mod script;
mod sources;
mod stages;
mod steps;
mod stores;
mod trials;

use std::io;

fn main(rt: HostRuntime) -> io::Result<()> {
    scenes::print_scenes(rt)?;
    answers::print_log(rt)?;
    answers::print_last(rt)?;
    answers::print_drops(rt)?;
    primaries::print_primaries(rt)?;
    sources::print_sources(rt)?;
    given::print_given(rt)?;
    refusals::print_refusals(rt)?;
    into::print_snapshots(rt)?;
    damaged::print_damaged(rt)?;
    drills::print_drills(rt)?;
    recoveries::print_recoveries(rt)?;
    folders::print_script(rt)?;
    folders::print_two_files(rt)
}
