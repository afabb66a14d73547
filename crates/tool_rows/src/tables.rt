//! The tables of rows, one after another.

use crate::asking::play_ask;
use crate::asks::ASKS;
use crate::backing::play_backup;
use crate::backups::BACKUPS;
use crate::commands::COMMANDS;
use crate::leases::LEASES;
use crate::nodes::NODES;
use crate::playing::{play_command, play_lease, play_node};
use crate::runs::RUNS;
use crate::starting::play_run;
use lf_base::Handles;
use std::fs;
use std::io::Print;
use std::process::Processes;
use std::rt::Files;
use test_base::Fault;

/// Each row of each table is played.
pub fn play_tables<R: Handles + Processes + Files + Print + AllocGlobal + Copy + Send + 'static>(
    rt: R,
) -> Result<(), Fault> {
    let alloc = rt.alloc();
    let file = fs::read(&rt, "snapshot.ltx")?;
    for row in COMMANDS {
        play_command(rt, row)?;
    }
    for row in NODES {
        play_node(rt, alloc, row, &file)?;
    }
    for row in LEASES {
        play_lease(rt, alloc, row)?;
    }
    for row in ASKS {
        play_ask(rt, alloc, row)?;
    }
    for row in BACKUPS {
        play_backup(rt, row)?;
    }
    for row in RUNS {
        play_run(rt, alloc, row)?;
    }
    Ok(())
}
