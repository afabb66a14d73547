//! The figures of a node.
use crate::board::Board;
use lf_base::{Clock, Handles, NoMemory, Text};
use node_figures::{Figures, Gauge, Tally};
use std::alloc::Global;

/// Where a node's figures are found.
#[derive(Drop)]
pub struct Meters {
    pub node: u64,
    /// The moment of its start.
    pub started: u64,
    /// Where it finds its primary, if it follows one.
    pub board: Option<Board>,
    pub tally: Tally,
}

impl Meters {
    /// A second hold of the same.
    pub fn another(&self) -> Result<Meters, NoMemory> {
        let board = match &self.board {
            Some(board) => Some(board.another()?),
            None => None,
        };
        Ok(Meters {
            node: self.node,
            started: self.started,
            board,
            tally: self.tally.another()?,
        })
    }
}

/// Reads them, by a clock.
#[derive(Drop)]
pub struct NodeGauge<R, C> {
    pub rt: R,
    pub clock: C,
    pub meters: Meters,
}

impl<R: Handles, C: Clock + Copy> Gauge for NodeGauge<R, C> {
    fn read(&self, alloc: Global) -> Result<Figures, NoMemory> {
        let mut clock = self.clock;
        let primary_url = match &self.meters.board {
            Some(board) => url_of(alloc, board.read(&self.rt)?)?,
            None => None,
        };
        Ok(Figures {
            node: self.meters.node,
            uptime_ms: clock.now_ms().saturating_sub(self.meters.started),
            primary_url,
            counts: self.meters.tally.counts(&self.rt, alloc)?,
        })
    }
}

/// The URL of an address.
fn url_of(alloc: Global, address: Option<Text>) -> Result<Option<Text>, NoMemory> {
    let Some(address) = address else {
        return Ok(None);
    };
    let mut text = String::from_str(alloc, "http://")?;
    text.push_str(address.as_str())?;
    let url = Text::of(alloc, text.as_str())?;
    Ok(Some(url))
}
