//! Sessions of clients with a node over a disk in memory: each reply, the position, and the files that are left on the
//! disk are compared with what was wanted. Those with a primary are played once more through `mount`, over links in memory
//! and through a Unix socket.
#![tactic(auto)]

mod clients;
mod comparing;
mod difference;
mod failing;
mod flag;
mod folder;
mod gathering;
mod held_link;
mod line;
mod making;
mod mounted;
mod opening;
mod playing;
mod scene;
mod socket_client;
mod socket_maker;
mod socketed;
mod stage;
mod two_links;
mod waiting;
mod way;

use difference::Difference;
use failing::play_failing;
use gathering::scenes_in;
use node_objects::System;
use scene::Scene;
use std::fs::{self, File};
use std::net::{TcpListener, TcpStream};
use std::process::Child;
use test_base::Fault;
use way::{WAYS, Way};

/// Scenes, and short ones of which each was changed in one respect.
const RECORDS: [&str; 2] = ["sessions.jsonl", "changed.jsonl"];

fn main(rt: HostRuntime) -> Result<(), Fault> {
    let _named: Option<(TcpListener, TcpStream, File, Child)> = None;
    for record in RECORDS {
        play_record(rt, record)?;
    }
    Ok(())
}

/// Plays the scenes of a record.
fn play_record<R: System + Print + Send + 'static>(rt: R, record: &str) -> Result<(), Fault> {
    let text = fs::read_to_string(&rt, record)?;
    let scenes = scenes_in(rt.alloc(), text.as_str())?;
    play_scenes(rt, &scenes)?;
    play_failing(rt, rt.alloc(), &scenes)
}

fn play_scenes<R: System + Print + Send + 'static>(rt: R, scenes: &[Scene]) -> Result<(), Fault> {
    for scene in scenes {
        play_scene(rt, scene)?;
    }
    Ok(())
}

/// Plays a scene in each way that is for it, and prints how it went.
fn play_scene<R: System + Print + Send + 'static>(rt: R, scene: &Scene) -> Result<(), Fault> {
    for way in WAYS {
        if way.is_for(scene) {
            let found = way.play(rt, rt.alloc(), scene)?;
            print(&rt, scene, way, found)?;
        }
    }
    Ok(())
}

/// Prints how a scene went in a way: what differs, or how many messages it has, and at a desk how many files it leaves.
fn print<R: Print>(
    rt: &R,
    scene: &Scene,
    way: Way,
    found: Option<Difference>,
) -> Result<(), Fault> {
    let (name, how) = (scene.name.as_str(), way.words());
    let messages = scene.messages();
    let files = scene.left.files.len();
    match (found, way) {
        (Some(why), _) => println!(rt; "{name}{how}: {why}")?,
        (None, Way::Desk) => println!(rt; "{name}: {messages} messages, {files} files left")?,
        (None, _) => println!(rt; "{name}{how}: {messages} messages")?,
    }
    Ok(())
}
