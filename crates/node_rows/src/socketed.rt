//! A scene is played once more through `mount` and a Unix socket, with the clients in a thread of their own. They come one
//! after another, each once the link of the one before has ended, or are served at one time.

use crate::clients::{SOCKET, requests_of, sent_differs};
use crate::difference::Difference;
use crate::making::{Jobs, maker_of, run};
use crate::opening::stored_disk;
use crate::scene::{Scene, Start};
use crate::socket_client::{connect, read_to_end};
use crate::socket_maker::SocketMaker;
use crate::two_links::play_two_clients;
use lf_base::{Closing, Handles};
use node_objects::System;
use std::alloc::Global;
use std::io::Write;
use std::{fs, thread};
use test_base::Fault;

/// A client sends all that it has to send, and reads to the end.
fn replies_to<R: Handles>(rt: &R, alloc: Global, requests: &[u8]) -> Result<Vec<u8>, Fault> {
    let mut stream = connect(rt)?;
    stream.write_all(requests)?;
    let mut replies = Vec::new(alloc);
    read_to_end(&mut stream, &mut replies)?;
    Ok(replies)
}

fn all_replies_to<R: Handles>(
    rt: &R,
    alloc: Global,
    requests: &[Vec<u8>],
) -> Result<Vec<Vec<u8>>, Fault> {
    let mut replies = Vec::new(alloc);
    for sent in requests {
        replies.push(replies_to(rt, alloc, sent)?)?;
    }
    Ok(replies)
}

/// Plays the clients of a scene one after another. Says how what they were sent differs.
fn play_in_order<R: Handles>(
    rt: &R,
    alloc: Global,
    scene: &Scene,
) -> Result<Option<Difference>, Fault> {
    let requests = requests_of(alloc, scene)?;
    let replies = all_replies_to(rt, alloc, &requests)?;
    Ok(sent_differs(&replies, scene))
}

/// Plays the clients of a scene. Then no more links come.
fn play_clients<R: Handles + Copy + Send>(
    rt: R,
    alloc: Global,
    scene: &Scene,
    closing: &Closing,
) -> Result<Option<Difference>, Fault> {
    let differs = if scene.start.at_one_time {
        play_two_clients(rt, alloc, scene)
    } else {
        play_in_order(&rt, alloc, scene)
    };
    closing.close_doors(&rt);
    differs
}

/// Plays the clients of a scene in a thread of their own, while the node runs. Says where it first differs.
fn play_beside<R: Handles + Copy + Send, N: FnOnce() -> Result<Option<Difference>, Fault>>(
    rt: R,
    alloc: Global,
    scene: &Scene,
    closing: &Closing,
    node: N,
) -> Result<Option<Difference>, Fault>
    requires { N.pre node }
{
    let (differs, ended) = thread::join(&rt, move || play_clients(rt, alloc, scene, closing), node);
    match ended? {
        None => differs,
        ended => Ok(ended),
    }
}

/// Runs the node of a start to its end. Its links come through the socket, until the word is closed.
fn run_socketed<R: System + Send + 'static>(
    rt: R,
    alloc: Global,
    start: Start,
    closing: &Closing,
) -> Result<Option<Difference>, Fault> {
    let jobs = if start.at_one_time {
        Jobs::InThreads
    } else {
        Jobs::InPlace
    };
    let word = closing.another()?;
    let disk = stored_disk(alloc, start)?;
    let memory = maker_of(alloc, disk, Vec::new(alloc), jobs)?;
    let mut maker = SocketMaker::new(rt, memory, word);
    let ended = run(rt, alloc, &mut maker);
    drop(maker);
    let _ = fs::remove_file(&rt, SOCKET);
    ended
}

/// Plays a scene through a socket, and says where it first differs.
pub fn play_over_socket<R: System + Send + 'static>(
    rt: R,
    alloc: Global,
    scene: &Scene,
) -> Result<Option<Difference>, Fault> {
    let closing = Closing::new(alloc)?;
    let (start, word) = (scene.start, &closing);
    play_beside(rt, alloc, scene, word, move || {
        run_socketed(rt, alloc, start, word)
    })
}
