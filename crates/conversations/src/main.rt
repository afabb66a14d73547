//! Conversations that real SQLite had with a node, replayed on the served files: each reply, and the
//! change and the position of each commit, are compared with those that were recorded.
#![tactic(auto)]

mod difference;
mod files;
mod outcome;
mod replay;
mod tally;
mod turn;

use std::fs;
use tally::Tally;
use test_base::Fault;

/// One conversation for each journal mode, worked rows, and rows of which some were changed.
const RECORDED: [&str; 6] = ["delete", "truncate", "persist", "wal", "rows", "changed"];

fn main(rt: HostRuntime) -> Result<(), Fault> {
    for mode in RECORDED {
        play(&rt, mode)?;
    }
    Ok(())
}

/// Replays a conversation, and prints what differs.
fn play(rt: &HostRuntime, mode: &str) -> Result<(), Fault> {
    let text = recorded(rt, mode)?;
    let mut tally = Tally::new(rt.alloc())?;
    let played = take_all(rt, mode, text.as_str(), &mut tally);
    drop(tally);
    played
}

/// Takes each line, and prints how many differ.
fn take_all(rt: &HostRuntime, mode: &str, text: &str, tally: &mut Tally) -> Result<(), Fault> {
    for line in text.lines() {
        take(rt, mode, tally, line)?;
    }
    print_tally(rt, mode, tally)
}

/// The lines of a conversation.
fn recorded(rt: &HostRuntime, mode: &str) -> Result<String, Fault> {
    let path = format!(in rt.alloc(); "{mode}.jsonl")?;
    Ok(fs::read_to_string(rt, path.as_str())?)
}

/// Takes one line, and prints how what comes out differs from it.
fn take(rt: &HostRuntime, mode: &str, tally: &mut Tally, line: &str) -> Result<(), Fault> {
    if let Some(why) = tally.take(rt.alloc(), line)? {
        let turns = tally.turns();
        println!(rt; "{mode}, line {turns}: {why}")?;
    }
    Ok(())
}

fn print_tally(rt: &HostRuntime, mode: &str, tally: &Tally) -> Result<(), Fault> {
    let turns = tally.turns();
    let transactions = tally.transactions();
    let differ = tally.differ();
    println!(rt; "{mode}: {turns} lines, {transactions} transactions, {differ} differ")?;
    Ok(())
}
