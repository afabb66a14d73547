//! The drill, played.
ghost use Rattle.std.specs.Prelude.{◌≡◌, IfOk, OnOk};
ghost use Rattle.cluster_drill.specs.Drill.{IsNew, IsPlayed};
ghost use Rattle.cluster_drill.specs.Nodes.{place};

use crate::draws::Draws;
use crate::follower::Follower;
use crate::nodes::{MemNode, Part, new_node, stop};
use crate::writer::commit;
use lf_base::{Bytes, NoMemory};
use std::alloc::Global;

/// How many transactions a drill has.
const TRANSACTIONS: u32 = 64;

/// A primary and two replicas over disks in memory, and the number by which they are played.
#[derive(Drop)]
pub struct Drill {
    pub number: u64,
    pub primary: MemNode,
    pub left: Follower,
    pub right: Follower,
    pub(crate) alloc: Global,
}

/// A drill of a primary and one replica, with another.
fn with_second(
    alloc: Global,
    number: u64,
    primary: MemNode,
    left: MemNode,
) -> Result<Drill, NoMemory>
    requires primary { (place primary).txid ≡ 0 }
    requires left { (place left).txid ≡ 0 }
    ensures { IfOk result (IsNew number) }
{
    match new_node(alloc, Part::Replica) {
        Ok(right) => Ok(Drill {
            number,
            primary,
            left: Follower::of(left),
            right: Follower::of(right),
            alloc,
        }),
        Err(want) => {
            stop(primary);
            stop(left);
            Err(want)
        }
    }
}

impl Drill {
    /// Three nodes of a database that was never written, and a number.
    pub fn new(alloc: Global, number: u64) -> Result<Drill, NoMemory>
        ensures { IfOk result (IsNew number) }
    {
        let primary = new_node(alloc, Part::Primary)?;
        match new_node(alloc, Part::Replica) {
            Ok(left) => with_second(alloc, number, primary, left),
            Err(want) => {
                stop(primary);
                Err(want)
            }
        }
    }

    /// One transaction of a client, and what becomes of its file on the way to each replica.
    fn turn(&mut self, draws: &mut Draws, txid: u32) -> Result<(), NoMemory>
        ensures at { OnOk result ((place self.new.primary).txid ≡ txid) }
        ensures number { self.new.number ≡ self.old.number }
    {
        commit(self.alloc, &mut self.primary, draws, txid)?;
        self.left.is_sent(self.alloc, &mut self.primary, draws)?;
        self.right.is_sent(self.alloc, &mut self.primary, draws)?;
        Ok(())
    }

    /// Takes all turns, after which both replicas follow until they are level.
    pub fn play(&mut self) -> Result<(), NoMemory>
        requires { (place self.old.primary).txid ≡ 0 }
        ensures at { OnOk result ((place self.new.primary).txid ≡ 64) }
        ensures number { self.new.number ≡ self.old.number }
    {
        let mut draws = Draws::new(self.number);
        for turn in 0..TRANSACTIONS {
            self.turn(&mut draws, turn + 1)?;
        }
        self.left.follows(&mut self.primary)?;
        self.right.follows(&mut self.primary)?;
        Ok(())
    }

    /// Stops the nodes.
    pub fn stop(self) {
        stop(self.primary);
        stop(self.left.node);
        stop(self.right.node);
    }
}

/// Plays the drill of a number. Its line.
pub fn play_drill(alloc: Global, number: u64) -> Result<Bytes, NoMemory>
    ensures { IfOk result (IsPlayed number) }
{
    let mut drill = Drill::new(alloc, number)?;
    let line = played(&mut drill);
    drill.stop();
    line
}

fn played(drill: &mut Drill) -> Result<Bytes, NoMemory>
    requires { (place drill.old.primary).txid ≡ 0 }
    ensures { IfOk result (IsPlayed drill.old.number) }
{
    let mut line = Vec::new(drill.alloc);
    drill.play()?;
    drill.line(&mut line)?;
    Ok(Bytes::of(line))
}
