//! The ways in which a scene is played.

use crate::difference::Difference;
use crate::mounted::play_mounted;
use crate::playing::play;
use crate::scene::Scene;
use crate::socketed::play_over_socket;
use crate::waiting::play_waiting;
use node_objects::System;
use std::alloc::Global;
use test_base::Fault;

#[derive(Clone, Copy)]
pub enum Way {
    /// At a desk, one session after another.
    Desk,
    /// At a desk, with a thread for each of two clients.
    Threads,
    /// Through `mount` and the socket, with a thread for each of two clients.
    Links,
    /// Through `mount`, over links in memory.
    Mount,
    /// Through `mount` and the socket, one session after another.
    Socket,
}

/// All of them, in the order in which they are played.
pub const WAYS: [Way; 5] = [Way::Desk, Way::Threads, Way::Links, Way::Mount, Way::Socket];

impl Way {
    /// Whether it is for a scene. `mount` is for a primary over a disk that goes on.
    pub fn is_for(self, scene: &Scene) -> bool {
        match self {
            Way::Desk => !scene.start.at_one_time,
            Way::Threads | Way::Links => scene.start.at_one_time,
            Way::Mount | Way::Socket => scene.is_for_mount(),
        }
    }

    /// Plays a scene, and says where it first differs.
    pub fn play<R: System + Send + 'static>(
        self,
        rt: R,
        alloc: Global,
        scene: &Scene,
    ) -> Result<Option<Difference>, Fault> {
        match self {
            Way::Desk => play(rt, alloc, scene),
            Way::Threads => play_waiting(rt, alloc, scene),
            Way::Mount => play_mounted(rt, alloc, scene),
            Way::Links | Way::Socket => play_over_socket(rt, alloc, scene),
        }
    }

    /// As it is printed behind the name of a scene.
    pub fn words(self) -> &'static str {
        match self {
            Way::Desk => "",
            Way::Threads => ", by two threads",
            Way::Links => ", by two links of mount",
            Way::Mount => ", through mount",
            Way::Socket => ", through a socket",
        }
    }
}
