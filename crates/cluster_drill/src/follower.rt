//! A replica, and what becomes of the files that it is owed.
ghost use Rattle.std.specs.Prelude.{◌≡◌};
ghost use Rattle.cluster_drill.specs.Nodes.{place};

use crate::draws::Draws;
use crate::nodes::{MemNode, NOW, ask, position, restart, stop_in};
use lf_base::NoMemory;
use node_core::{Answer, Ask};
use std::alloc::Global;

/// How often the files that a replica was owed behind a transaction were lost, it stopped in the first of
/// them, or they were delivered.
#[derive(Clone, Copy, Debug, PartialEq, Eq)]
pub struct Fates {
    pub lost: u64,
    pub stopped: u64,
    pub delivered: u64,
}

/// A replica, and what became of the files that it was owed.
#[derive(Drop)]
pub struct Follower {
    pub node: MemNode,
    pub fates: Fates,
}

/// How many calls of its disk a replica may make of an apply before it stops: 0 to 5.
const STOPS: u64 = 6;

/// More files than a replica is owed.
const ENOUGH: u64 = 100;

/// The file that the primary owes a replica, as the replica is asked to take it.
fn owed(primary: &mut MemNode, replica: &mut MemNode) -> Result<Option<Ask>, NoMemory>
    ensures stays { place primary.new ≡ place primary.old }
{
    let Some(pos) = position(replica) else {
        return Err(NoMemory);
    };
    let hello = Ask::Hello {
        now: NOW,
        pos,
        last: None,
    };
    match ask(primary, 0, &hello) {
        Answer::Item { ltx, .. } => Ok(Some(Ask::Frame {
            now: NOW,
            bytes: ltx,
        })),
        _ => Ok(None),
    }
}

impl Follower {
    pub(crate) fn of(node: MemNode) -> Follower
        ensures { result.node ≡ node }
    {
        Follower {
            node,
            fates: Fates {
                lost: 0,
                stopped: 0,
                delivered: 0,
            },
        }
    }

    /// It takes the file that it is owed next. Whether there was one, and it took it.
    fn follows_once(&mut self, primary: &mut MemNode) -> Result<bool, NoMemory>
        ensures stays { place primary.new ≡ place primary.old }
    {
        match owed(primary, &mut self.node)? {
            Some(frame) => Ok(matches!(ask(&mut self.node, 0, &frame), Answer::Applied(_))),
            None => Ok(false),
        }
    }

    /// It takes all that it is owed.
    pub(crate) fn follows(&mut self, primary: &mut MemNode) -> Result<(), NoMemory>
        ensures stays { place primary.new ≡ place primary.old }
    {
        for _ in 0..ENOUGH {
            if !self.follows_once(primary)? {
                return Ok(());
            }
        }
        Ok(())
    }

    /// Its disk fails from a call on while it takes the file that it is owed next, and it is opened again.
    fn stops(&mut self, alloc: Global, primary: &mut MemNode, calls: u64) -> Result<(), NoMemory>
        ensures stays { place primary.new ≡ place primary.old }
    {
        let owed = owed(primary, &mut self.node)?;
        stop_in(alloc, &mut self.node, calls)?;
        if let Some(frame) = owed {
            ask(&mut self.node, 0, &frame);
        }
        restart(alloc, &mut self.node)
    }

    /// What becomes of the files that it is owed behind a transaction, as the draws say.
    pub(crate) fn is_sent(
        &mut self,
        alloc: Global,
        primary: &mut MemNode,
        draws: &mut Draws,
    ) -> Result<(), NoMemory>
        ensures stays { place primary.new ≡ place primary.old }
    {
        match draws.below(4) {
            0 => {
                self.fates.lost = self.fates.lost.saturating_add(1);
                Ok(())
            }
            1 => {
                self.fates.stopped = self.fates.stopped.saturating_add(1);
                self.stops(alloc, primary, draws.below(STOPS))
            }
            _ => {
                self.fates.delivered = self.fates.delivered.saturating_add(1);
                self.follows(primary)
            }
        }
    }
}
