//! File links are accepted, and each is served in a job of its own.
ghost use Rattle.std.specs.Prelude.{◌≡◌, true, OnOk};
ghost use Rattle.node_mount.specs.Places.{HasSeenNone};
ghost use Rattle.node_mount.specs.Serving.{CountsServing, GivesLimit};

use crate::means::Means;
use crate::mount_fault::MountFault;
use crate::place::Place;
use crate::sessions::{LINKS, Writer, open_session};
use lf_base::{Acceptor, Clock, Dialer, Handles, Link, Pause, Spawner};
use node_core::{Answer, Ask};
use turn_desk::Machine;

/// Starts a session for each link, until no more come.
pub fn serve_file_links<
    R: Handles + Copy + Send + 'static,
    K: Machine<Ask = Ask, Answer = Answer> + Send + Drop + 'static,
    A: Acceptor,
    U: Link + Send + Drop + 'static,
    T: Dialer<L = U> + Send + Drop + 'static,
    S: Spawner,
    C: Clock + Copy + Send + 'static,
    P: Pause + Copy + Send + 'static,
>(
    means: Means<R, C, P>,
    place: &mut Place<K>,
    accept: &mut A,
    writer: &Writer<T>,
    spawner: &mut S,
) -> Result<(), MountFault>
    requires unused { HasSeenNone place.old.seat }
    requires new { A.given accept.old ≡ 0 }
    ensures ended { OnOk result (A.ended accept.new ≡ true) }
    ensures limit { GivesLimit (A.given accept.new) result }
    ensures cause { CountsServing (A.faults accept.old) (A.faults accept.new) (S.faults spawner.old) (S.faults spawner.new) result }
{
    for _ in 0..LINKS {
        let link = match accept.accept(&means.rt) {
            Ok(Some(link)) => link,
            Ok(None) => return Ok(()),
            Err(_) => return Err(MountFault::Network),
        };
        match open_session(means, place, writer, link, spawner) {
            Ok(()) => {}
            Err(_) => return Err(MountFault::NoThread),
        }
    }
    Err(MountFault::Limit)
}
