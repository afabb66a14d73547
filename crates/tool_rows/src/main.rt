//! Whole runs of the program over memory: how each ends, what it says, and what it writes.
#![tactic(auto)]

mod asking;
mod asks;
mod backing;
mod backups;
mod changed;
mod commands;
mod drills;
mod failing;
mod leases;
mod lines;
mod making;
mod nodes;
mod objects;
mod playing;
mod replies;
mod running;
mod runs;
mod starting;
mod tables;

use std::net::{TcpListener, TcpStream};
use test_base::Fault;

fn main(rt: HostRuntime) -> Result<(), Fault> {
    let _named: Option<(TcpListener, TcpStream)> = None;
    tables::play_tables(rt)?;
    failing::play_failing(rt)?;
    changed::play_changed(rt)?;
    drills::play_drills(&rt, rt.alloc())
}
